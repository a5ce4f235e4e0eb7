//! What a case gives to a call: files, defines and texts.
use crate::fields::Case;
use crate::stop::Stop;
use std::alloc::Global;
use vl_pre::{Defines, PreFault, Text, expand};
use xt_base::MemFiles;

/// The file that is expanded.
const TOP_FILE: &str = "top.v";

/// Bytes as text.
pub fn as_text(bytes: &[u8]) -> Result<&str, Stop> {
    match str::from_utf8(bytes) {
        Ok(text) => Ok(text),
        Err(_) => Err(Stop::Malformed),
    }
}

/// The first line, and what stands behind its line feed.
pub fn first_line(text: &[u8]) -> (&[u8], &[u8]) {
    match text.iter().position(|byte| *byte == b'\n') {
        Some(end) if end < text.len() => (&text[..end], &text[end + 1..]),
        _ => (text, b""),
    }
}

/// The numbers of a field, or none where there is no such field.
pub fn numbers(alloc: Global, case: &Case, word: &str) -> Result<Vec<u64>, Stop> {
    let mut numbers = Vec::new(alloc);
    for number in as_text(case.get(word).unwrap_or(b""))?.split_whitespace() {
        match number.parse::<u64>() {
            Ok(number) => numbers.push(number)?,
            Err(_) => return Err(Stop::Malformed),
        }
    }
    Ok(numbers)
}

/// The source of a field `text`, or of a field `parts`, each blank of which stands for a line feed.
pub fn source(alloc: Global, case: &Case) -> Result<Option<Vec<u8>>, Stop> {
    if let Some(text) = case.get("text") {
        return Ok(Some(Vec::from_slice(alloc, text)?));
    }
    let Some(parts) = case.get("parts") else {
        return Ok(None);
    };
    let mut source = Vec::new(alloc);
    for byte in parts {
        source.push(if *byte == b' ' { b'\n' } else { *byte })?;
    }
    Ok(Some(source))
}

/// The files of the fields `file`, a name and below it the file's text; `loads` lists the loads that fail.
pub fn files(alloc: Global, case: &Case) -> Result<MemFiles, Stop> {
    let loads = numbers(alloc, case, "loads")?;
    let mut files = MemFiles::new(alloc, loads.as_slice())?;
    for field in case.fields.as_slice() {
        if field.word.as_str() == "file" {
            let (name, text) = first_line(field.text.as_slice());
            files.put(as_text(name)?, text)?;
        }
    }
    if let Some(source) = source(alloc, case)? {
        files.put(TOP_FILE, source.as_slice())?;
    }
    Ok(files)
}

/// The macros of the fields `define`, a name and its text.
fn defines(alloc: Global, case: &Case) -> Result<Defines, Stop> {
    let mut defines = Defines::new(alloc);
    for field in case.fields.as_slice() {
        if field.word.as_str() == "define" {
            let define = as_text(field.text.as_slice())?;
            let (name, text) = define.split_once(' ').unwrap_or((define, ""));
            defines.add(name, text)?;
        }
    }
    Ok(defines)
}

/// The expansion of the file `top.v`.
pub fn expansion(
    alloc: Global,
    case: &Case,
    files: &mut MemFiles,
) -> Result<Result<Text, PreFault>, Stop> {
    let defines = defines(alloc, case)?;
    Ok(expand(alloc, files, TOP_FILE, &defines))
}

/// The text of a source without directives, or the expansion of `top.v` where the case has files.
pub fn text(alloc: Global, case: &Case) -> Result<Text, Stop> {
    if let Some(source) = source(alloc, case)?
        && source.len() < 2_147_483_647
    {
        return Ok(Text::plain(alloc, TOP_FILE, source.as_slice())?);
    }
    let mut files = files(alloc, case)?;
    match expansion(alloc, case, &mut files)? {
        Ok(text) => Ok(text),
        Err(_) => Err(Stop::Malformed),
    }
}
