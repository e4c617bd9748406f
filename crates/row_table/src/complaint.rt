//! What is said of an output that is not as it is wanted.
use std::alloc::{AllocError, Global};

/// How many bytes before the first difference are said, and how many from there on.
const BEFORE: usize = 60;

const BEHIND: usize = 140;

/// The text around a place, as far as it is said.
fn clipped(alloc: Global, text: &[u8], place: usize) -> Result<String, AllocError> {
    let rest = text.get(place.saturating_sub(BEFORE)..).unwrap_or(b"");
    let end = place.min(BEFORE).saturating_add(BEHIND);
    String::from_utf8_lossy(alloc, rest.get(..end).unwrap_or(rest))
}

/// What was wanted and what came, around their first difference.
pub fn complaint(alloc: Global, wanted: &[u8], got: &[u8]) -> Result<String, AllocError> {
    let place = wanted
        .iter()
        .zip(got)
        .position(|(one, other)| one != other)
        .unwrap_or(wanted.len().min(got.len()));
    let (wanted, got) = (clipped(alloc, wanted, place)?, clipped(alloc, got, place)?);
    format!(in alloc; "wanted {wanted:?}, got {got:?}")
}

/// The complaint where one text is not the other.
pub fn unless_same(alloc: Global, wanted: &[u8], got: &[u8]) -> Result<Option<String>, AllocError> {
    if wanted == got {
        return Ok(None);
    }
    Ok(Some(complaint(alloc, wanted, got)?))
}

/// The lines of a text, without their line feeds.
fn lines_of(alloc: Global, text: &[u8]) -> Result<Vec<&[u8]>, AllocError> {
    let mut lines = Vec::new(alloc);
    for line in text.split_inclusive(|byte| *byte == b'\n') {
        lines.push(line.strip_suffix(b"\n").unwrap_or(line))?;
    }
    Ok(lines)
}

/// Whether a line has the words of a form, where `*` is any one word.
fn is_like(form: &[u8], line: &[u8]) -> bool {
    let mut words = line.split(|byte| *byte == b' ');
    for wanted in form.split(|byte| *byte == b' ') {
        let Some(word) = words.next() else {
            return false;
        };
        if wanted != b"*".as_slice() && wanted != word {
            return false;
        }
    }
    words.next().is_none()
}

/// The complaint where a text has not all these lines in this order.
pub fn unless_has(alloc: Global, forms: &[u8], text: &[u8]) -> Result<Option<String>, AllocError> {
    let lines = lines_of(alloc, text)?;
    let mut rest = lines.iter();
    for form in lines_of(alloc, forms)? {
        if !rest.any(|line| is_like(form, line)) {
            return Ok(Some(complaint(alloc, form, text)?));
        }
    }
    Ok(None)
}

/// The complaint where a text does not end in these lines.
pub fn unless_ends(alloc: Global, forms: &[u8], text: &[u8]) -> Result<Option<String>, AllocError> {
    let (wanted, lines) = (lines_of(alloc, forms)?, lines_of(alloc, text)?);
    let mut rest = lines.iter().rev();
    for form in wanted.iter().rev() {
        if !rest.next().is_some_and(|line| is_like(form, line)) {
            let end = text.len().saturating_sub(BEHIND);
            return Ok(Some(complaint(alloc, form, text.get(end..).unwrap_or(b""))?));
        }
    }
    Ok(None)
}

/// The complaint where a text has not so many lines of this form.
pub fn unless_counts(
    alloc: Global,
    count: usize,
    form: &[u8],
    text: &[u8],
) -> Result<Option<String>, AllocError> {
    let lines = lines_of(alloc, text)?;
    let found = lines.iter().filter(|line| is_like(form, line)).count();
    if found == count {
        return Ok(None);
    }
    let form = String::from_utf8_lossy(alloc, form)?;
    Ok(Some(format!(in alloc; "wanted {count} lines {form:?}, got {found}")?))
}
