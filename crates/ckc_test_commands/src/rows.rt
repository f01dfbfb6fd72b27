//! Cases of one line, written out as the lines of a case: `COMMAND WANTED | TEXT`, or `usage WORDS`.
use crate::notation::split_word;
use ckc_test_trials::Page;

/// The lines of a case: what stands in front of the text, between it and what is wanted, and after that.
struct Frame(&'static str, &'static str, &'static str);

/// The lines of the cases of a command. `asm` asks nothing of input and output.
fn frame_of(command: &str) -> Option<Frame> {
    match command {
        "exec" => Some(Frame("file text ", "\nccc exec text\n", "")),
        "interp" => Some(Frame("file text ", "\nccc interp text\n", "")),
        "check" => Some(Frame("file text ", "\nccc check text\n", "")),
        "image" => Some(Frame("file image ", "\nccc run image\n", "")),
        "report" => Some(Frame("report ", "\n", "")),
        "asm" => Some(Frame(
            "file text ",
            "\nfails input 1\nfails out 1\nccc asm text image\n",
            "\nlacks image",
        )),
        "watch" => Some(Frame(
            "file text ",
            "\nccc build text image\nexit 0\nstatus Done\nwatch text image\n",
            "",
        )),
        "parts" => Some(Frame(
            "file text ",
            "\nfails input 1\nfails out 1\nccc asm text image\nexit 0\nstatus Done\nparts image ",
            "",
        )),
        "run" => Some(Frame(
            "file text ",
            "\nccc asm text image\nexit 0\nstatus Done\nccc run image 100\n",
            "",
        )),
        _ => None,
    }
}

/// The lines of the case that a row stands for.
pub fn lines_of(row: &str, lines: &mut Page) {
    let (command, rest) = split_word(row);
    if command == "usage" {
        lines.put("file file int main(void) { putchar(72); return 0; }\nccc ");
        lines.put(rest);
        lines.put("\nexit 112\nerr ccc: wrong words\\n");
        return;
    }
    match frame_of(command) {
        Some(Frame(before, between, after)) => {
            let (wanted, text) = lines.parts_of(rest, " |");
            lines.put(before);
            lines.put(text.strip_prefix(' ').unwrap_or(text));
            lines.put(between);
            if command == "watch" {
                put_watched(wanted, lines);
            } else {
                put_wanted(command, wanted, lines);
            }
            lines.put(after);
        }
        None => lines.refuse("no form has the row"),
    }
}

/// Writes what is wanted: the parts of an image, or of a call `ended VALUE OUTPUT`; `done`; `E301 1:24`; or the exit
/// status and the line on standard error.
fn put_wanted(command: &str, wanted: &str, lines: &mut Page) {
    let (first, rest) = split_word(wanted);
    if command == "parts" {
        lines.put(wanted);
    } else if first == "ended" {
        put_ended(rest, lines);
    } else if first == "done" {
        lines.put("exit 0\nstatus Done");
    } else if first.starts_with('E') {
        lines.put("exit 113\nerr refused: ");
        lines.put(first);
        lines.put(" at ");
        lines.put(rest);
        lines.put("\\n");
    } else {
        lines.put("exit ");
        lines.put(first);
        lines.put("\nerr ");
        lines.put(rest);
        lines.put("\\n");
    }
}

/// Writes what is wanted of a run that is watched: how many stores go to the heap word and into blocks, and then the rest
/// as of a call.
fn put_watched(wanted: &str, lines: &mut Page) {
    let (heap, rest) = split_word(wanted);
    let (blocks, rest) = split_word(rest);
    put_wanted("watch", rest, lines);
    lines.put("\nstores ");
    lines.put(heap);
    lines.put(" ");
    lines.put(blocks);
}

fn put_ended(rest: &str, lines: &mut Page) {
    let (value, out) = split_word(rest);
    let exit = lines.word_of(value) % 256;
    lines.put("exit ");
    lines.put_number(i64::from(exit));
    lines.put("\nstatus Ended(");
    lines.put(value);
    lines.put(")\nout ");
    lines.put(out);
}
