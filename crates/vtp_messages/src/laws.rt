//! Facts of the definitions that the crates above cite, each told by a function that does nothing.

ghost use Rattle.std.specs.Prelude.{◌≡◌, ◌&&◌, ◌-◌, ◌<◌, ◌≤◌, IsTrue, true, length, nat_le, nat_lt, slice_index};
ghost use Rattle.std.specs.List.{list_all};
ghost use Rattle.std.specs.Str.{IsUtf8};
ghost use Rattle.xml_lexer.specs.Characters.{Text};
ghost use Rattle.voe_values.specs.EndName.{is_end_name};
ghost use Rattle.voe_tree.specs.Document.{Spells};
ghost use Rattle.voe_tree.specs.Texts.{is_xml_text};
ghost use Rattle.voe_tree.specs.declared.element.Element.{Element};
ghost use Rattle.vtp_messages.specs.Parts.{is_stripped};
ghost use Rattle.vtp_messages.specs.Reading.{IsMessageOf, RefusesMessage};
ghost use Rattle.vtp_messages.specs.Rooted.{IsPlainName, IsPlainNameIf, has_xml_texts, message_root};
ghost use Rattle.vtp_messages.specs.Sizes.{texts_size};
ghost use Rattle.vtp_messages.specs.Spelling.{is_writable_message, spelling};
ghost use Rattle.vtp_messages.specs.declared.fault.MessageFault.{MessageFault};
ghost use Rattle.vtp_messages.specs.declared.fault.MessageFault.TheVariants.{NoMemory};
ghost use Rattle.vtp_messages.specs.declared.message.Message.{Message};

/// A text of printable ASCII that neither begins nor ends with a blank may stand in a message as its stamp or result.
pub fn printable_texts_stand()
    ensures stripped { (s : Text) → 32 < slice_index s 0 → 32 < slice_index s (length s - 1) → IsTrue (is_stripped s) }
    ensures xml { (s : Text) → list_all (λ b. nat_le 32 b && nat_lt b 127) s ≡ true → IsTrue (is_xml_text s) }
{}

/// A tree says at most one message, and one that says a message is refused for nothing but want of memory.
pub fn messages_are_unique()
    ensures one { (root : Element) (m n : Message) → IsMessageOf m root → IsMessageOf n root → m ≡ n }
    ensures refused { (root : Element) (m : Message) (fault : MessageFault) → IsMessageOf m root → RefusesMessage root fault → fault ≡ NoMemory }
{}

/// An end name is plain. A message whose names are plain, and whose texts are made of XML characters, is written as a
/// text of a tree that says it, where the text is short enough to be read.
pub fn messages_read_back()
    ensures names { (name : Text) → IsUtf8 name → IsTrue (is_end_name name) → IsPlainName name }
    ensures says { (m : Message) → IsPlainName m.origin → IsPlainNameIf m.response → IsMessageOf m (message_root m) }
    ensures spells { (m : Message) → IsPlainName m.origin → IsPlainNameIf m.response → IsTrue (has_xml_texts m) → IsTrue (is_writable_message m) → Spells (message_root m) (spelling m) }
{}

/// A message of short texts is short enough to be read, which is at most 1,048,576 bytes, and none is empty.
pub fn short_messages_fit()
    ensures fits { (m : Message) → texts_size m ≤ 32768 → length m.params ≤ 1024 → IsTrue (is_writable_message m) }
    ensures some { (m : Message) → 1 ≤ length (spelling m) }
    ensures within { (m : Message) → IsTrue (is_writable_message m) → length (spelling m) ≤ 1048576 }
{}
