// Reading a text line by line.
ghost use Rattle.std.specs.Fn.{FnOnceReturnsAt};
ghost use Rattle.certificate_text.specs.Fields.{field_of};
ghost use Rattle.certificate_text.specs.Lines.{field_line, entry_line, Steps, StepsBy};
ghost use Rattle.certificate_text.specs.Fronts.{Fixed, Listed};

use crate::fault::TextFault;
use crate::line::{entry_in, field_in};
use crate::names::{FIELDS, Field, fields};
use certificate::fields::StrengthFactor;
use std::alloc::Global;
use text_pieces::pieces::cut_line;

// What is left of the text.
#[derive(Drop)]
pub(crate) struct Reader<'a> {
    pub(crate) rest: &'a [u8],
}

impl<'a> Reader<'a> {
    // What is read from the next line; a line that is not understood is left.
    fn step<T, F: FnOnce(&[u8]) -> Option<T>>(&mut self, read: F) -> Option<T>
        requires { F.IsAlwaysCallable read }
        ensures { StepsBy (FnOnceReturnsAt F.FnOnce read) self.old.rest.now self.new.rest.now result }
    {
        let cut = cut_line(self.rest)?;
        let said = read(cut.line)?;
        self.rest = cut.rest;
        Some(said)
    }

    // The number of the field, where the next line is that field's.
    fn field(&mut self, field: &Field) -> Option<u32>
        ensures { Steps (field_line (field_of field.now)) self.old.rest.now self.new.rest.now result }
    {
        self.step(|line| field_in(line, field))
    }

    // The entry of the next line, where it is one of the list.
    fn entry(&mut self, name: &str) -> Option<StrengthFactor>
        ensures { Steps (entry_line name.now) self.old.rest.now self.new.rest.now result }
    {
        self.step(|line| entry_in(line, name))
    }

    // The numbers of all fields, or the first line that is not its field's.
    pub(crate) fn fixed(&mut self) -> Result<[u32; FIELDS], TextFault>
        ensures { Fixed self.old.rest.now self.new.rest.now result }
    {
        let mut numbers = [0; FIELDS];
        // by number: k places the number and names the line
        for (k, field) in fields().iter().enumerate() {
            numbers[k] = self.field(field).ok_or(TextFault::Line(k + 1))?;
        }
        Ok(numbers)
    }

    // The entries of a list, as far as the lines are the list's.
    pub(crate) fn list(
        &mut self,
        heap: Global,
        name: &str,
    ) -> Result<Vec<StrengthFactor>, TextFault>
        ensures { Listed name.now self.old.rest.now self.new.rest.now result }
    {
        let mut entries = Vec::new(heap);
        // a loop: from_fn would hold the reader
        while let Some(entry) = self.entry(name) {
            entries.push(entry)?;
        }
        Ok(entries)
    }
}
