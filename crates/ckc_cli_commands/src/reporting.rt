ghost use Rattle.std.specs.Prelude.{◌≡◌, ◌+◌, ◌≤◌, [], ◌∷◌, ◌++◌, length, codes};
ghost use Rattle.std.specs.Fmt.{decimal};
ghost use Rattle.ckc_asm.specs.Names.{hex};
ghost use Rattle.ckc_base.specs.Checks.{name_of};
ghost use Rattle.ckc_cli_commands.specs.Report.{report_of, kind_name, place};

use crate::status::Status;
use ckc_asm_listing::TextLine;
use ckc_base::{Check, Pos, Refusal, check_name};
use ckc_machine::FaultKind;

/// The line of a status, LF included; nothing if the status has none.
pub fn report(status: &Status) -> TextLine
    ensures { result ≡ report_of status.now }
{
    match status {
        Status::Done | Status::Ended(_) => TextLine::new(),
        Status::Stopped(check, at) => stopped_line(*check, at),
        Status::Going => plain_line(b"going: limit reached"),
        Status::MachineFault(kind, pc) => fault_line(*kind, *pc),
        Status::Stuck(at, since) => stuck_line(at, since),
        Status::Usage => plain_line(b"ccc: wrong words"),
        Status::Refused(refusal) => refused_line(refusal),
        Status::BadImage(part) => bad_image_line(*part),
        Status::ReadFault => plain_line(b"fault: input"),
        Status::WriteFault => plain_line(b"fault: output"),
        Status::StoreFault => plain_line(b"fault: store"),
        Status::Memory => plain_line(b"fault: memory"),
    }
}

fn plain_line(words: &[u8]) -> TextLine
    requires { length words.now ≤ 79 }
    ensures { result ≡ words.now ++ 10 ∷ [] }
{
    let mut line = TextLine::new();
    line.push_text(words);
    line.push(b'\n');
    line
}

fn stopped_line(check: Check, at: &Pos) -> TextLine
    ensures { result ≡ codes "stopped: " ++ name_of check
        ++ codes " at " ++ place at.now ++ 10 ∷ [] }
{
    let mut line = TextLine::new();
    line.push_text(b"stopped: ");
    push_check(&mut line, check);
    line.push_text(b" at ");
    push_place(&mut line, at);
    line.push(b'\n');
    line
}

fn stuck_line(at: &Pos, since: &Pos) -> TextLine
    ensures { result ≡ codes "stuck: at " ++ place at.now
        ++ codes ", unchecked since " ++ place since.now ++ 10 ∷ [] }
{
    let mut line = TextLine::new();
    line.push_text(b"stuck: at ");
    push_place(&mut line, at);
    line.push_text(b", unchecked since ");
    push_place(&mut line, since);
    line.push(b'\n');
    line
}

fn fault_line(kind: FaultKind, pc: u32) -> TextLine
    ensures { result ≡ codes "fault: " ++ kind_name kind ++ codes " at 0x" ++ hex 8 pc ++ 10 ∷ [] }
{
    let mut line = TextLine::new();
    line.push_text(b"fault: ");
    push_kind(&mut line, kind);
    line.push_text(b" at 0x");
    line.push_hex_8(pc);
    line.push(b'\n');
    line
}

fn refused_line(refusal: &Refusal) -> TextLine
    ensures { result ≡ codes "refused: E" ++ decimal refusal.now.code ++ codes " at "
        ++ place refusal.now.pos ++ 10 ∷ [] }
{
    let mut line = TextLine::new();
    line.push_text(b"refused: E");
    line.push_number(u32::from(refusal.code));
    line.push_text(b" at ");
    push_place(&mut line, &refusal.pos);
    line.push(b'\n');
    line
}

fn bad_image_line(part: u8) -> TextLine
    ensures { result ≡ codes "bad image: part " ++ decimal part ++ 10 ∷ [] }
{
    let mut line = TextLine::new();
    line.push_text(b"bad image: part ");
    line.push_number(u32::from(part));
    line.push(b'\n');
    line
}

fn push_place(line: &mut TextLine, at: &Pos)
    requires { length line.old ≤ 49 }
    ensures text { line.new ≡ line.old ++ place at.now }
    ensures length { length line.new ≤ length line.old + 21 }
{
    line.push_number(at.line);
    line.push(b':');
    line.push_number(at.col);
}

fn push_check(line: &mut TextLine, check: Check)
    requires { length line.old ≤ 40 }
    ensures text { line.new ≡ line.old ++ name_of check }
    ensures length { length line.new ≤ length line.old + 10 }
{
    let name = check_name(check).as_bytes();
    prove!(name.len() <= 10);
    line.push_text(name);
}

fn push_kind(line: &mut TextLine, kind: FaultKind)
    requires { length line.old ≤ 40 }
    ensures text { line.new ≡ line.old ++ kind_name kind }
    ensures length { length line.new ≤ length line.old + 5 }
{
    match kind {
        FaultKind::Fetch => line.push_text(b"fetch"),
        FaultKind::Word => line.push_text(b"word"),
        FaultKind::Align => line.push_text(b"align"),
        FaultKind::Load => line.push_text(b"load"),
        FaultKind::Store => line.push_text(b"store"),
        FaultKind::Break => line.push_text(b"break"),
        FaultKind::Call => line.push_text(b"call"),
    }
}
