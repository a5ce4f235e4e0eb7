//! Case files: cases as blocks of lines, with an empty line between two.
//!
//! A line of a case is a field: a word, a blank and a text. `| text` adds a line to the text of the field before,
//! `+ text` adds to its last line, and `*30 text` does that 30 times. `text => wanted` ends a case with a field `want`. In
//! a text `\n`, `\t` and `\x1b` stand for bytes. A line that begins with `#` is a comment. A block that begins with a line
//! `shared` is no case: the cases behind it have its fields too, up to the next such block.
use crate::stop::Stop;
use std::alloc::Global;
use std::mem;

/// A field of a case.
#[derive(Debug, Drop)]
pub struct Field {
    pub word: String,
    pub text: Vec<u8>,
}

/// A case: the number of its last line, from 1, and its fields.
#[derive(Debug, Drop)]
pub struct Case {
    pub line: usize,
    pub fields: Vec<Field>,
}

impl Case {
    /// A case without fields.
    fn new(alloc: Global) -> Case {
        Case {
            line: 0,
            fields: Vec::new(alloc),
        }
    }

    /// The text of the first field with this word.
    pub fn get(&self, word: &str) -> Option<&[u8]> {
        for field in self.fields.as_slice() {
            if field.word.as_str() == word {
                return Some(field.text.as_slice());
            }
        }
        None
    }

    /// The same, of a field that the call can't do without.
    pub fn text(&self, word: &str) -> Result<&[u8], Stop> {
        match self.get(word) {
            Some(text) => Ok(text),
            None => Err(Stop::Malformed),
        }
    }
}

/// The cases of a file.
pub fn cases_of(alloc: Global, text: &str) -> Result<Vec<Case>, Stop> {
    let mut cases = Vec::new(alloc);
    let mut shared = Vec::new(alloc);
    let mut case = Case::new(alloc);
    for (i, line) in text.lines().enumerate() {
        if !line.is_empty() {
            case.line = i.saturating_add(1);
        }
        if add_line(alloc, &mut case.fields, line)? {
            end_block(alloc, &mut cases, &mut shared, &mut case)?;
        }
    }
    end_block(alloc, &mut cases, &mut shared, &mut case)?;
    Ok(cases)
}

/// Puts a case behind the others, or the fields of a shared block in the place of those before.
fn end_block(
    alloc: Global,
    cases: &mut Vec<Case>,
    shared: &mut Vec<Field>,
    case: &mut Case,
) -> Result<(), Stop> {
    let Case { line, mut fields } = mem::replace(case, Case::new(alloc));
    match fields.first() {
        None => return Ok(()),
        Some(first) if first.word.as_str() == "shared" => {
            *shared = fields;
            return Ok(());
        }
        Some(_) => (),
    }
    for field in shared.as_slice() {
        fields.push(Field {
            word: field.word.clone()?,
            text: field.text.clone()?,
        })?;
    }
    cases.push(Case { line, fields })?;
    Ok(())
}

/// Adds a line to a case, and says whether it ends it.
fn add_line(alloc: Global, fields: &mut Vec<Field>, line: &str) -> Result<bool, Stop> {
    match line.as_bytes().first() {
        None => Ok(true),
        Some(b'#') => Ok(false),
        Some(b'|' | b'+' | b'*') => {
            let Some(field) = fields.last_mut() else {
                return Err(Stop::Malformed);
            };
            add_more(&mut field.text, line)?;
            Ok(false)
        }
        Some(_) => add_fields(alloc, fields, line),
    }
}

/// Adds a line that begins a field, and says whether it ends the case.
fn add_fields(alloc: Global, fields: &mut Vec<Field>, line: &str) -> Result<bool, Stop> {
    let (word, rest) = line.split_once(' ').unwrap_or((line, ""));
    let ending = match rest.strip_suffix(" =>") {
        Some(text) => Some((text, "")),
        None => rest.split_once(" => "),
    };
    match ending {
        None => {
            fields.push(new_field(alloc, word, rest)?)?;
            Ok(false)
        }
        Some((text, wanted)) => {
            fields.push(new_field(alloc, word, text)?)?;
            fields.push(new_field(alloc, "want", wanted)?)?;
            Ok(true)
        }
    }
}

fn new_field(alloc: Global, word: &str, piece: &str) -> Result<Field, Stop> {
    let mut text = Vec::new(alloc);
    add_piece(&mut text, piece)?;
    Ok(Field {
        word: String::from_str(alloc, word)?,
        text,
    })
}

/// Adds what a line that goes on with a field says.
fn add_more(text: &mut Vec<u8>, line: &str) -> Result<(), Stop> {
    let (mark, piece) = line.split_once(' ').unwrap_or((line, ""));
    if mark == "|" {
        text.push(b'\n')?;
    }
    if mark == "|" || mark == "+" {
        return add_piece(text, piece);
    }
    match mark.strip_prefix('*').map(|count| count.parse::<u32>()) {
        Some(Ok(count)) => add_times(text, piece, count),
        _ => Err(Stop::Malformed),
    }
}

fn add_times(text: &mut Vec<u8>, piece: &str, count: u32) -> Result<(), Stop> {
    let mut bytes = Vec::new(*text.allocator());
    add_piece(&mut bytes, piece)?;
    for _ in 0..count {
        text.extend_from_slice(bytes.as_slice())?;
    }
    Ok(())
}

/// Adds a piece, with bytes in the place of what stands for them.
fn add_piece(text: &mut Vec<u8>, piece: &str) -> Result<(), Stop> {
    let mut is_first = true;
    for part in piece.split('\\') {
        if is_first {
            text.extend_from_slice(part.as_bytes())?;
        } else {
            add_escaped(text, part)?;
        }
        is_first = false;
    }
    Ok(())
}

/// Adds what stands behind a backslash. A backslash that stands for nothing else is one.
fn add_escaped(text: &mut Vec<u8>, part: &str) -> Result<(), Stop> {
    let (byte, rest) = match part.as_bytes() {
        [b'n', rest @ ..] => (b'\n', rest),
        [b't', rest @ ..] => (b'\t', rest),
        [b'x', high, low, rest @ ..] => match (digit(*high), digit(*low)) {
            (Some(high), Some(low)) => (high << 4 | low, rest),
            _ => return Err(Stop::Malformed),
        },
        rest => (b'\\', rest),
    };
    text.push(byte)?;
    text.extend_from_slice(rest)?;
    Ok(())
}

fn digit(byte: u8) -> Option<u8> {
    match byte {
        b'0'..=b'9' => Some(byte - b'0'),
        b'a'..=b'f' => Some(byte - b'a' + 10),
        _ => None,
    }
}
