//! The lines that are printed, each into a buffer that holds nothing yet.
ghost use Rattle.std.specs.Prelude.{◌≡◌, ◌≤◌, [], length};
ghost use Rattle.console.specs.Answers.{change_line};
ghost use Rattle.console.specs.Limits.{room};
ghost use Rattle.console.specs.Lines.{ok_line, count_line, yes_line};
ghost use Rattle.console.specs.Refusals.{refused_line};
ghost use Rattle.console.specs.Texts.{text};

use crate::buffer::Printed;
use crate::refusals::Refused;

// That nothing was printed yet is no field of the buffer: it is false once the line is printed.

/// What was ordered is done.
pub(crate) fn ok(line: &mut Printed)
    requires { text line.old ≡ [] }
    ensures { text line.new ≡ ok_line }
{
    line.extend_from_slice(b"ok\n");
}

/// A refusal by number and place.
pub(crate) fn bad(refused: Refused, line: &mut Printed)
    requires { text line.old ≡ [] }
    ensures { text line.new ≡ refused_line refused }
{
    line.extend_from_slice(b"bad ");
    line.decimal(refused.number().into());
    line.extend_from_slice(b" ");
    line.decimal(refused.place());
    line.extend_from_slice(b"\n");
}

/// A word and a count.
pub(crate) fn counted(word: &[u8], count: u32, line: &mut Printed)
    requires bare { text line.old ≡ [] }
    requires short { length word.now ≤ 16 }
    ensures { text line.new ≡ count_line word.now count }
{
    line.extend_from_slice(word);
    line.extend_from_slice(b" ");
    line.decimal(count as usize);
    line.extend_from_slice(b"\n");
}

/// A yes with its count and its tree.
pub(crate) fn yes(count: u32, tree: &[u8], line: &mut Printed)
    requires bare { text line.old ≡ [] }
    requires short { length tree.now ≤ room }
    ensures { text line.new ≡ yes_line count tree.now }
{
    line.extend_from_slice(b"yes ");
    line.decimal(count as usize);
    line.extend_from_slice(b" ");
    line.hex(tree);
    line.extend_from_slice(b"\n");
}

/// The line for what is done or refused.
pub(crate) fn done(change: Result<(), Refused>) -> Printed
    ensures { text result ≡ change_line change }
{
    let mut line = Printed::new();
    match change {
        Ok(()) => ok(&mut line),
        Err(refused) => bad(refused, &mut line),
    }
    line
}
