//! The message in which an end says something.

ghost use Rattle.std.specs.Prelude.{◌≡◌, ◌≤◌, ◌++◌, ◌∷◌, [], IfOk, OnOk, map, Some};
ghost use Rattle.node_notes.specs.Forms.{is_name};
ghost use Rattle.vtp_messages.specs.Parts.{is_stripped_if as stripped_if};
ghost use Rattle.vtp_messages.specs.Spelling.{spelling};
ghost use Rattle.vtp_server.specs.Speech.{IsMessageSo, IsSpelled, filter_param, named_or, origin_of, params_of, reason, response_of, result_of, role_of, two_digits, verdict_origin, verdict_reason, verdict_role};

use crate::speech::{Speech, Voice};
use net_model::{NakCode, Verdict};
use std::alloc::Global;
use std::str;
use voe_packet::Param;
use voe_time::stamp;
use voe_values::{Bytes, EndName, Listing, NoMemory, Text, is_end_name};
use vtp_framing::Payload;
use vtp_messages::{Message, MessageRole, is_stripped, write_message};

fn verdict_role(verdict: &Verdict) -> MessageRole
    ensures { result ≡ verdict_role verdict.now }
{
    match verdict {
        Verdict::Ack { .. } => MessageRole::Ack,
        Verdict::Nak { .. } => MessageRole::Nak,
    }
}

fn role_of(speech: &Speech) -> MessageRole
    ensures { result ≡ role_of speech.now }
{
    match speech {
        Speech::Alive | Speech::AliveTo { .. } => MessageRole::IAmAlive,
        Speech::WhoAreYou | Speech::IAm { .. } => MessageRole::Authenticate,
        Speech::Answer(verdict) => verdict_role(verdict),
    }
}

#[tactic(auto, using(node_notes::proofs::Texts::name_is, node_notes::proofs::Texts::no_name, node_notes::proofs::Texts::end_name_from))]
fn named_or(alloc: Global, identifier: &Bytes, name: &EndName) -> Result<EndName, NoMemory>
    ensures { IfOk result (λ made. made ≡ named_or identifier.now name.now) }
{
    let Ok(text) = str::from_utf8(identifier.as_slice()) else {
        return name.copy();
    };
    if !is_end_name(text) {
        return name.copy();
    }
    EndName::of(alloc, text)
}

fn verdict_origin(alloc: Global, name: &EndName, verdict: &Verdict) -> Result<EndName, NoMemory>
    ensures { IfOk result (λ made. made ≡ verdict_origin name.now verdict.now) }
{
    match verdict {
        Verdict::Ack { identifier } => named_or(alloc, identifier, name),
        Verdict::Nak {
            identifier: Some(identifier),
            ..
        } => named_or(alloc, identifier, name),
        Verdict::Nak {
            identifier: None,
            ..
        } => name.copy(),
    }
}

fn origin_of(alloc: Global, name: &EndName, speech: &Speech) -> Result<EndName, NoMemory>
    ensures { IfOk result (λ made. made ≡ origin_of name.now speech.now) }
{
    match speech {
        Speech::Alive | Speech::WhoAreYou => name.copy(),
        Speech::AliveTo { asker } | Speech::IAm { asker } => asker.copy(),
        Speech::Answer(verdict) => verdict_origin(alloc, name, verdict),
    }
}

fn response_of(name: &EndName, speech: &Speech) -> Result<Option<EndName>, NoMemory>
    ensures { IfOk result (λ made. made ≡ response_of name.now speech.now) }
{
    match speech {
        Speech::Alive | Speech::WhoAreYou => Ok(None),
        Speech::AliveTo { .. } | Speech::IAm { .. } | Speech::Answer(_) => {
            let own = name.copy()?;
            Ok(Some(own))
        }
    }
}

fn push_param(params: &mut Listing<Param>, param: Param) -> Result<(), NoMemory>
    ensures { OnOk result (params.new ≡ params.old ++ param ∷ []) }
{
    match params.push(param) {
        Ok(()) => Ok(()),
        Err((_, fault)) => Err(fault),
    }
}

fn filter_params(alloc: Global, filters: &[Text]) -> Result<Listing<Param>, NoMemory>
    ensures { IfOk result (λ params. params ≡ map filter_param filters.now) }
{
    let mut params = Listing::new(alloc);
    for filter in filters {
        add_filter(alloc, &mut params, filter)?;
    }
    Ok(params)
}

fn add_filter(alloc: Global, params: &mut Listing<Param>, filter: &Text) -> Result<(), NoMemory>
    ensures { OnOk result (params.new ≡ params.old ++ filter_param filter.now ∷ []) }
{
    let name = Text::of(alloc, "xpath-filter")?;
    let value = filter.copy()?;
    push_param(params, Param { name, value })
}

fn params_of(alloc: Global, filters: &[Text], speech: &Speech) -> Result<Listing<Param>, NoMemory>
    ensures { IfOk result (λ params. params ≡ params_of filters.now speech.now) }
{
    match speech {
        Speech::IAm { .. } => filter_params(alloc, filters),
        Speech::Alive | Speech::AliveTo { .. } | Speech::WhoAreYou | Speech::Answer(_) => {
            Ok(Listing::new(alloc))
        }
    }
}

/// A letter's rule, by its number in two digits.
fn rule_text(alloc: Global, start: &str, number: u8) -> Result<Text, NoMemory>
    ensures { IfOk result (λ text. text ≡ start.now ++ two_digits number) }
{
    let mut text = Text::of(alloc, start)?;
    text.push((b'0' + number / 10 % 10) as char)?;
    text.push((b'0' + number % 10) as char)?;
    Ok(text)
}

fn reason(alloc: Global, code: NakCode) -> Result<Text, NoMemory>
    ensures { IfOk result (λ text. text ≡ reason code) }
{
    match code {
        NakCode::Tree(number) => rule_text(alloc, "refused T", number),
        NakCode::Validity(number) => rule_text(alloc, "refused V", number),
        NakCode::Conflict => Text::of(alloc, "refused conflict"),
        NakCode::Full => Text::of(alloc, "refused full"),
    }
}

fn result_of(alloc: Global, speech: &Speech) -> Result<Option<Text>, NoMemory>
    ensures { IfOk result (λ made. made ≡ result_of speech.now) }
{
    match speech {
        Speech::Answer(Verdict::Nak { code, .. }) => {
            let text = reason(alloc, *code)?;
            Ok(Some(text))
        }
        Speech::Answer(Verdict::Ack { .. })
        | Speech::Alive
        | Speech::AliveTo { .. }
        | Speech::WhoAreYou
        | Speech::IAm { .. } => Ok(None),
    }
}

fn is_stripped_if(text: &Option<Text>) -> bool
    ensures { result ≡ stripped_if text.now }
{
    match text {
        Some(text) => is_stripped(text.as_str()),
        None => true,
    }
}

/// The message in which a voice says so at a moment, of at most 4,102,444,799,999 milliseconds since 1970.
pub fn spell(
    alloc: Global,
    voice: &Voice,
    speech: &Speech,
    moment: u64,
) -> Result<Payload, NoMemory>
    requires { moment ≤ 4102444799999 }
    ensures { IfOk result (λ payload. IsSpelled voice.now speech.now moment payload) }
{
    let message = message_of(alloc, voice, speech, moment)?;
    write(alloc, &message)
}

fn message_of(
    alloc: Global,
    voice: &Voice,
    speech: &Speech,
    moment: u64,
) -> Result<Message, NoMemory>
    requires { moment ≤ 4102444799999 }
    ensures { IfOk result (λ message. IsMessageSo voice.now speech.now moment message) }
{
    let origin = origin_of(alloc, &voice.name, speech)?;
    let response = response_of(&voice.name, speech)?;
    let stamp = Some(stamp(alloc, moment)?);
    let params = params_of(alloc, voice.filters.as_slice(), speech)?;
    let result = result_of(alloc, speech)?;
    if !is_stripped_if(&stamp) || !is_stripped_if(&result) {
        return Err(NoMemory);
    }
    Ok(Message {
        role: role_of(speech),
        origin,
        response,
        stamp,
        params,
        result,
    })
}

/// The text of a message as a payload. A message's text is never too long, and never empty.
fn write(alloc: Global, message: &Message) -> Result<Payload, NoMemory>
    ensures { IfOk result (λ payload. payload ≡ spelling message.now) }
{
    if !message.has_xml_texts() {
        return Err(NoMemory);
    }
    let Ok(bytes) = write_message(alloc, message) else {
        return Err(NoMemory);
    };
    match Payload::of(bytes) {
        Ok(payload) => Ok(payload),
        Err(_) => Err(NoMemory),
    }
}
