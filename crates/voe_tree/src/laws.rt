//! Facts of the definitions that the crates above cite, each told by a function that does nothing.

ghost use Rattle.std.specs.Prelude.{◌≡◌, ◌==◌, ◌&&◌, ◌∷◌, ◌++◌, suc, IsTrue, Some, None, true, false, length, map, nat_le, nat_lt};
ghost use Rattle.std.specs.List.{concat, list_all};
ghost use Rattle.xml_lexer.specs.Characters.{Text};
ghost use Rattle.xml_lexer.specs.Token.{start};
ghost use Rattle.voe_tree.specs.Texts.{is_xml_text};
ghost use Rattle.voe_tree.specs.Shape.{attributes_keep, children_keep, depth, greatest, height, is_local_name, is_well_formed, keeps, node_kept};
ghost use Rattle.voe_tree.specs.Contents.{element_in, string_in, string_of, text_in};
ghost use Rattle.voe_tree.specs.Canonical.{all_in, end_tag, is_short, text_tokens, tokens_in, tokens_of, written_attributes};
ghost use Rattle.voe_tree.specs.Prefixed.{is_prefix, prefixed, prefixed_tokens, takes_prefix};
ghost use Rattle.voe_tree.specs.Document.{Spells};
ghost use Rattle.voe_tree.specs.Fault.{RefusesTree};
ghost use Rattle.voe_tree.specs.declared.element.Element.{Element};
ghost use Rattle.voe_tree.specs.declared.element.Node.TheVariants as tree;
ghost use Rattle.voe_tree.specs.declared.fault.TreeFault.{TreeFault};
ghost use Rattle.voe_tree.specs.declared.fault.TreeFault.TheVariants.{NoMemory};

/// Bytes spell at most one tree.
pub fn trees_are_unique()
    ensures { (bytes : Text) (a b : Element) → Spells a bytes → Spells b bytes → a ≡ b }
{}

/// Bytes that spell a tree are refused for nothing but want of memory.
pub fn spelled_is_not_refused()
    ensures { (bytes : Text) (root : Element) (fault : TreeFault) → Spells root bytes → RefusesTree bytes fault → fault ≡ NoMemory }
{}

/// The text of a tree whose root has a prefix spells the tree, where it is short enough to be read.
pub fn prefixed_trees_read_back()
    ensures { (prefix : Text) (root : Element) → IsTrue (is_prefix prefix) → IsTrue (takes_prefix root) → IsTrue (is_well_formed root) → IsTrue (is_short (length (prefixed prefix root)) (prefixed_tokens prefix root)) → Spells root (prefixed prefix root) }
{}

/// What the functions of an element are, by those of its children.
pub fn elements_open()
    ensures tokens { (e : Element) (default : Text) → tokens_of e default ≡ start e.local (written_attributes default e.space e.attributes) (length e.children == 0) ∷ all_in e.space (map tokens_in e.children) ++ end_tag (length e.children == 0) e.local }
    ensures kept { (e : Element) → keeps e ≡ (is_xml_text e.space && is_local_name e.local && attributes_keep e.attributes && children_keep (map node_kept e.children)) }
    ensures depth { (e : Element) → depth e ≡ suc (greatest (map height e.children)) }
    ensures string { (e : Element) → string_of e ≡ concat (map string_in e.children) }
{}

/// What the functions of a node are, where it is an element and where it is a text.
pub fn nodes_open()
    ensures element_tokens { (e : Element) (default : Text) → tokens_in (tree.Element e) default ≡ tokens_of e default }
    ensures text_tokens { (text default : Text) → tokens_in (tree.Text text) default ≡ text_tokens text }
    ensures element_kept { (e : Element) → node_kept (tree.Element e) ≡ (false, keeps e) }
    ensures text_kept { (text : Text) → node_kept (tree.Text text) ≡ (true, (nat_lt 0 (length text) && is_xml_text text)) }
    ensures element_height { (e : Element) → height (tree.Element e) ≡ depth e }
    ensures text_height { (text : Text) → height (tree.Text text) ≡ 0 }
    ensures element_string { (e : Element) → string_in (tree.Element e) ≡ string_of e }
    ensures text_string { (text : Text) → string_in (tree.Text text) ≡ text }
    ensures element_in { (e : Element) → element_in (tree.Element e) ≡ Some e }
    ensures text_no_element { (text : Text) → element_in (tree.Text text) ≡ None }
    ensures text_in { (text : Text) → text_in (tree.Text text) ≡ Some text }
    ensures element_no_text { (e : Element) → text_in (tree.Element e) ≡ None }
{}

/// Texts of printable ASCII and deletes are made of XML characters.
pub fn printable_is_xml()
    ensures { (s : Text) → list_all (λ b. nat_le 32 b && nat_lt b 128) s ≡ true → is_xml_text s ≡ true }
{}
