// The entries of a list.
ghost use Rattle.std.specs.Prelude.{◌≡◌};
ghost use Rattle.listing.specs.Entries.{outcome, entered};
ghost use Rattle.listing.specs.Writers.{written, room};
ghost use Rattle.runner.specs.Answers.{reply_words, fault_words, outcome_words};

use crate::reply::Reply;
use listing::room::NoRoom;
use listing::word::Word;
use listing::writer::ListWriter;
use script::fault::ScriptFault;
use script::told::Told;

// The entry of a line that is carried out.
fn enter_reply(list: &mut ListWriter, line: usize, reply: Reply) -> Result<(), NoRoom>
    ensures lender { list.new.buffer.ghost_name ≡ list.old.buffer.ghost_name }
    ensures room { room list.new ≡ room list.old }
    ensures after { outcome (written list.new) result ≡ entered (room list.old) (written list.old) (reply_words line reply) }
{
    match reply {
        Reply::Painted { record, rows } => list.entry(&[
            Word::Number(line as u64),
            Word::Number(u64::from(record.whole)),
            Word::Number(record.from as u64),
            Word::Number(record.removed as u64),
            Word::Number(record.put as u64),
            Word::Number(record.broken),
            Word::Number(rows as u64),
        ]),
        Reply::Shown(row) => list.entry(&[
            Word::Number(line as u64),
            Word::Letter('='),
            Word::Number(row.start as u64),
            Word::Number(row.end as u64),
            Word::Letter(row.ending.letter()),
            Word::Number(u64::from(row.width)),
            Word::Number(row.reach as u64),
        ]),
    }
}

// The entry of a refused line: its number, a mark, and what the refusal tells.
fn enter_fault(list: &mut ListWriter, fault: ScriptFault) -> Result<(), NoRoom>
    ensures lender { list.new.buffer.ghost_name ≡ list.old.buffer.ghost_name }
    ensures room { room list.new ≡ room list.old }
    ensures after { outcome (written list.new) result ≡ entered (room list.old) (written list.old) (fault_words fault.line fault.fault) }
{
    let line = Word::Number(fault.line as u64);
    let mark = Word::Letter('!');
    match fault.fault.told() {
        Told::Number(number) => list.entry(&[line, mark, Word::Number(u64::from(number))]),
        Told::NoGlyph(u) => list.entry(&[
            line,
            mark,
            Word::Number(u64::from(u.number())),
            Word::Number(u.offset as u64),
            Word::Number(u64::from(u.glyph.code)),
            Word::Number(u64::from(u.glyph.depth)),
        ]),
    }
}

// The entry of a line.
pub fn enter(
    list: &mut ListWriter,
    line: usize,
    reply: Result<Reply, ScriptFault>,
) -> Result<(), NoRoom>
    ensures lender { list.new.buffer.ghost_name ≡ list.old.buffer.ghost_name }
    ensures room { room list.new ≡ room list.old }
    ensures after { outcome (written list.new) result ≡ entered (room list.old) (written list.old) (outcome_words line reply) }
{
    match reply {
        Ok(reply) => enter_reply(list, line, reply),
        Err(fault) => enter_fault(list, fault),
    }
}
