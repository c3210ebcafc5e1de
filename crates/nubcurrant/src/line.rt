// A line of the input that has not ended yet.
ghost use Rattle.std.specs.Prelude.{◌≡◌, [], ◌∷◌, ◌++◌, take};

use arrayvec::ArrayVec;

// The first bytes of a line: 121, one more than a line may have (a constant argument is written out and not computed), which is enough to see that it is too long. A line that is longer
// takes no more room.
pub(crate) type Line = ArrayVec<u8, 121>;

// One byte more, where there is room for it.
pub(crate) fn keep(line: &mut Line, byte: u8)
    ensures { line.new.items ≡ take 121 (line.old.items ++ (byte ∷ [])) }
{
    if !line.is_full() {
        line.push(byte);
    }
}
