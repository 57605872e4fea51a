//! Words of a line: numbers, permissions and paths.
ghost use Rattle.std.specs.Prelude.{◌≡◌, map, IfOk};
ghost use Rattle.std.specs.List.{list_all};
ghost use Rattle.std.specs.Option.{option_map};
ghost use Rattle.fo_console.specs.Line.{is_octal, is_octal_word};
ghost use Rattle.fo_base.specs.Parts.{parts_at};
ghost use Rattle.fo_console.specs.Reading.{is_some_text, is_number, number_of, octal_of, perm_of, names_of, path_of};

use fo_base::Memory;
use fo_world::{DMDIR, Name};
use itoa::Buffer;
use std::alloc::{AllocError, Global};

/// The words of a line: its parts round each space.
pub fn words<'a>(alloc: Global, line: &'a str) -> Result<Vec<&'a str>, Memory>
    ensures { IfOk result (λ v. map (λ x. x.now) v.items ≡ parts_at 32 line.now) }
{
    Ok(line.split(' ').collect(alloc)?)
}

/// Whether no text is empty.
pub fn are_texts(texts: &[&str]) -> bool
    ensures { result ≡ list_all (λ x. is_some_text x.now) texts.now }
{
    texts.iter().all(|text| !text.is_empty())
}

/// Whether the word is how the number is written, which is below 2^31.
fn is_number(number: u32, word: &str) -> bool
    ensures { result ≡ is_number number word.now }
{
    let mut buffer = Buffer::new();
    number < 0x8000_0000 && buffer.format(number) == word
}

/// The number that the word is, in decimal without leading zeros and below 2^31.
pub fn read_number(word: &str) -> Option<u32>
    ensures { result ≡ number_of word.now }
{
    let Ok(number) = word.parse::<u32>() else {
        return None;
    };
    if is_number(number, word) {
        Some(number)
    } else {
        None
    }
}

/// Whether the bytes are octal digits.
fn are_octal(digits: &str) -> bool
    ensures { result ≡ list_all is_octal digits.now }
{
    digits.as_bytes().iter().all(|b| b'0' <= *b && *b <= b'7')
}

/// Whether the word is one to three octal digits.
fn is_octal_word(word: &str) -> bool
    ensures { result ≡ is_octal_word word.now }
{
    !word.is_empty() && word.len() <= 3 && are_octal(word)
}

/// The permissions that one to three octal digits are.
fn read_octal(digits: &str) -> Option<u32>
    ensures { result ≡ octal_of digits.now }
{
    if !is_octal_word(digits) {
        return None;
    }
    u32::from_str_radix(digits, 8).ok()
}

/// The permissions that the word is, a directory's after `d`.
pub fn read_perm(word: &str) -> Option<u32>
    ensures { result ≡ perm_of word.now }
{
    let Some(digits) = word.strip_prefix('d') else {
        return read_octal(word);
    };
    let number = read_octal(digits)?;
    Some(DMDIR + number)
}

/// The names of a path, as they stand behind its first slash.
fn read_names(alloc: Global, names: &str) -> Result<Option<Vec<Name>>, Memory>
    ensures { IfOk result (λ o. option_map (λ v. v.items) o ≡ names_of names.now) }
{
    if names.is_empty() {
        return Ok(Some(Vec::new(alloc)));
    }
    let parts = parts(alloc, names)?;
    if !are_texts(parts.as_slice()) {
        return Ok(None);
    }
    Ok(Some(copies(alloc, parts.as_slice())?))
}

/// Copies of the texts.
fn copies(alloc: Global, texts: &[&str]) -> Result<Vec<Name>, Memory>
    ensures { IfOk result (λ v. v.items ≡ map (λ x. x.now) texts.now) }
{
    let mut names = Vec::new(alloc);
    for text in texts {
        names.push(Name::copy_of(alloc, text.as_bytes())?)?;
    }
    Ok(names)
}

/// The parts of a path round each slash.
fn parts<'a>(alloc: Global, path: &'a str) -> Result<Vec<&'a str>, AllocError>
    ensures { IfOk result (λ v. map (λ x. x.now) v.items ≡ parts_at 47 path.now) }
{
    path.split('/').collect(alloc)
}

/// The path that the word is.
pub fn read_path(alloc: Global, word: &str) -> Result<Option<Vec<Name>>, Memory>
    ensures { IfOk result (λ o. option_map (λ v. v.items) o ≡ path_of word.now) }
{
    match word.strip_prefix('/') {
        Some(names) => read_names(alloc, names),
        None => Ok(None),
    }
}
