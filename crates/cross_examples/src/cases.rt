// What a line of a list says.
ghost use Rattle.std.specs.Prelude.{◌≡◌, IfSome};
ghost use Rattle.cross_examples.specs.Lines.{barred, line_of};

use std::alloc::{AllocError, Global};

/// A case: what it shows; the file of its module, or `-` for no input; the words of the command line; the status that it ends
/// with; the file of what it writes to the output, or `-` for nothing; and the line that it writes to the notes, or `-` for none.
#[derive(Clone, Copy)]
pub struct Case<'a> {
    pub name: &'a str,
    pub input: &'a str,
    pub words: &'a str,
    pub status: &'a str,
    pub answer: &'a str,
    pub line: &'a str,
}

/// A text up to its first bar, and from there on.
fn cut(text: &str) -> Option<(&str, &str)>
    ensures { IfSome result (λ parts. text.now ≡ barred parts.0.now parts.1.now) }
{
    text.split_once(" | ")
}

/// The case that a line is: six fields with bars between them.
pub fn case_of(line: &str) -> Option<Case<'_>>
    ensures { IfSome result (λ case. line.now ≡ line_of case) }
{
    let (name, rest) = cut(line)?;
    let (input, rest) = cut(rest)?;
    let (words, rest) = cut(rest)?;
    let (status, rest) = cut(rest)?;
    let (answer, line) = cut(rest)?;
    Some(Case {
        name,
        input,
        words,
        status,
        answer,
        line,
    })
}

/// A file, and how many of its octets are the input, if not all.
#[derive(Clone, Copy)]
pub struct Input<'a> {
    pub file: &'a str,
    pub count: Option<usize>,
}

/// The input that a field is: `FILE`, or `FILE COUNT`.
pub fn input_of(field: &str) -> Input<'_> {
    match field.split_once(" ") {
        Some((file, count)) => Input {
            file,
            count: count.parse().ok(),
        },
        None => Input {
            file: field,
            count: None,
        },
    }
}

/// The words that a field is, with blanks between them: none where it is `-`, and an empty one where it is `''`.
pub fn words_of(alloc: Global, field: &str) -> Result<Vec<&str>, AllocError> {
    let mut words = Vec::new(alloc);
    if field == "-" {
        return Ok(words);
    }
    for word in field.split(' ') {
        words.push(if word == "''" { "" } else { word })?;
    }
    Ok(words)
}
