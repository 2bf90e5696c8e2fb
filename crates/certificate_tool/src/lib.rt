// What the certificate programs do, on values: a readable text becomes the bytes of a certificate, and the bytes of a
// certificate become their text. It promises that a certificate made from a text reads as what the text says, and
// that a refusal names the line of the text, or the question and the byte.
#![tactic(auto)]

ghost use Rattle.std.specs.Prelude.{◌≡◌};
ghost use Rattle.certificate_tool.specs.Outcomes.{Makes, Shows};

use crate::fault::ToolFault;
use certificate::certificate::Certificate;
use certificate::layout::MOST_BYTES;
use certificate::write::write;
use certificate_text::parsing::parse;
use certificate_text::printing::print;
use std::alloc::Global;

pub mod fault;
pub mod telling;

// The bytes of the certificate that a text describes.
pub fn make(heap: Global, text: &[u8]) -> Result<Vec<u8>, ToolFault>
    ensures { Makes text.now result }
{
    let parsed = parse(heap, text)?;
    let mut buffer = [0; MOST_BYTES]; // write fills a lent buffer
    let length = write(&parsed.fields(), &mut buffer)?;
    Ok(Vec::from_slice(heap, &buffer[..length])?)
}

// The text of the certificate in these bytes.
pub fn show(heap: Global, bytes: &[u8]) -> Result<String, ToolFault>
    ensures { Shows bytes.now result }
{
    let certificate = Certificate::read(bytes)?;
    Ok(print(heap, &certificate)?)
}
