// From tables to the bytes of their file.
ghost use Rattle.std.specs.Prelude.{◌≡◌, ◌+◌, ◌≤◌, ◌++◌, length, take, drop, OnErr};
ghost use Rattle.fault.specs.Refusals.{Answers};
ghost use Rattle.file.specs.File.{file_length, header, le4};
ghost use Rattle.file.specs.Tables.{Written, data_of, write_refusal};

use super::Tables;
use crate::header::{ENTRY_BYTES, HEADER_BYTES, LETTERS, VERSION};
use crate::horizon::Horizon;
use crate::layout::count;
use fault::{Fault, Rule};

// Writes the header to the front of a buffer.
fn put_header(out: &mut [u8], horizon: Horizon)
    requires { 6 ≤ length out.old }
    ensures { out.new ≡ header horizon.stages ++ drop 6 out.old }
{
    let stages = horizon.stages() as u8;
    let [s, d, t] = LETTERS;
    let [low, high] = VERSION.to_le_bytes();
    out[..HEADER_BYTES].copy_from_slice(&[s, d, t, low, high, stages]);
}

// Writes a number's four bytes at an offset.
fn put_word(out: &mut [u8], at: usize, value: i32)
    requires { at + 4 ≤ length out.old }
    ensures { out.new ≡ take at out.old ++ (le4 value ++ drop (at + 4) out.old) }
{
    out[at..at + ENTRY_BYTES].copy_from_slice(&value.to_le_bytes());
}

impl Tables {
    // Writes the file to the front of a buffer that it fits in.
    fn put(&self, out: &mut [u8])
        requires { file_length self.now.horizon.stages ≤ length out.old }
        ensures { Written (data_of self.now) out.old out.new (file_length self.now.horizon.stages) }
    {
        put_header(out, self.horizon);
        // Written at offsets: of what goes through `chunks_exact_mut`, a proof knows nothing.
        let entries = &self.entries[..count(self.horizon)];
        for (k, value) in entries.iter().enumerate() {
            put_word(out, HEADER_BYTES + ENTRY_BYTES * k, *value);
        }
    }

    // Writes the file of the tables to the front of a buffer, and answers its length. A buffer too short is left as it is.
    pub fn write(&self, out: &mut [u8]) -> Result<usize, Fault>
        ensures answers { Answers (write_refusal (data_of self.now) (length out.old)) (λ len. Written (data_of self.now) out.old out.new len) result }
        ensures unchanged { OnErr result (out.new ≡ out.old) }
    {
        let len = self.len();
        if out.len() < len {
            return Err(Rule::FileBuffer.at(len));
        }
        self.put(out);
        Ok(len)
    }

    // How many bytes the file of the tables has.
    pub fn len(&self) -> usize
        ensures { result ≡ file_length self.now.horizon.stages }
    {
        HEADER_BYTES + ENTRY_BYTES * count(self.horizon)
    }
}
