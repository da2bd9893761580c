// The parts of a case.
ghost use Rattle.std.specs.Prelude.{◌≡◌, ◌<◌, ◌==◌, map, option_map, IfOk};
ghost use Rattle.op_semantics.specs.Component.{each_one};
ghost use Rattle.dispatch_case.specs.Three.{triple_of};
ghost use Rattle.dispatch_case.specs.Cases.{buffer_view};
ghost use Rattle.dispatch_case.specs.Written.{said_by, pieces as pieces_of, number_of, numbers_of, three_of, buffer_with, buffer_by, buffer_among, key_of as key_named, said_behind, said_among, said_of};

use spec_constants::decimal;
use spv_words::Memory;
use std::alloc::{AllocError, Global};

/// What a part says: the numbers of workgroups, a buffer with its words, the words of the push constants, the invocations that
/// come first, or how many steps there are at most.
#[derive(Drop)]
pub enum Part {
    Groups([u32; 3]),
    Buffer((u32, u32, Vec<u32>)),
    Push(Vec<u32>),
    First(Vec<u32>),
    Steps(u32),
}

/// What a part is of.
#[derive(Clone, Copy, Debug, PartialEq, Eq)]
pub enum Key {
    Groups,
    Buffer,
    Push,
    First,
    Steps,
}

/// What stands between these characters.
pub fn pieces(alloc: Global, text: &str, between: char) -> Result<Vec<&str>, AllocError>
    requires { between < 128 }
    ensures { IfOk result (λ list. map (λ p. p.now) list.items ≡ pieces_of between text.now) }
{
    text.split(between).collect(alloc)
}

/// A number that is at most 4294967295.
fn number(text: &str) -> Option<u32>
    ensures { result ≡ number_of text.now }
{
    decimal(text.as_bytes(), u32::MAX)
}

/// The numbers that words are, if each is one.
fn numbers_in(alloc: Global, words: &[&str]) -> Result<Option<Vec<u32>>, Memory>
    ensures { IfOk result (λ list. option_map (λ v. v.items) list ≡ each_one number_of (map (λ w. w.now) words.now)) }
{
    let mut list = Vec::new(alloc);
    for word in words {
        match number(*word) {
            None => return Ok(None),
            Some(number) => list.push(number)?,
        }
    }
    Ok(Some(list))
}

/// The numbers that a text lists.
fn numbers(alloc: Global, text: &str, between: char) -> Result<Option<Vec<u32>>, Memory>
    requires { between < 128 }
    ensures { IfOk result (λ list. option_map (λ v. v.items) list ≡ numbers_of between text.now) }
{
    let words = pieces(alloc, text, between)?;
    numbers_in(alloc, &words)
}

fn three(list: &[u32]) -> Option<[u32; 3]>
    ensures { option_map triple_of result ≡ three_of list.now }
{
    match list {
        [x, y, z] => Some([*x, *y, *z]),
        _ => None,
    }
}

/// `X,Y,Z`.
fn groups(alloc: Global, text: &str) -> Result<Option<Part>, Memory>
    ensures { IfOk result (λ part. option_map said_by part ≡ said_behind text.now Key.Groups) }
{
    match numbers(alloc, text, ',')? {
        None => Ok(None),
        Some(list) => Ok(three(&list).map(Part::Groups)),
    }
}

/// The buffer with these names and words.
fn buffer_named(names: &[u32], words: Vec<u32>) -> Option<(u32, u32, Vec<u32>)>
    ensures { option_map buffer_view result ≡ buffer_with names.now words.items }
{
    match names {
        [set, binding] => Some((*set, *binding, words)),
        _ => None,
    }
}

fn buffer_from(names: Option<Vec<u32>>, words: Option<Vec<u32>>) -> Option<(u32, u32, Vec<u32>)>
    ensures { option_map buffer_view result ≡ buffer_by (option_map (λ v. v.items) names) (option_map (λ v. v.items) words) }
{
    match (names, words) {
        (Some(names), Some(words)) => buffer_named(&names, words),
        _ => None,
    }
}

fn buffer_in(alloc: Global, pieces: &[&str]) -> Result<Option<(u32, u32, Vec<u32>)>, Memory>
    ensures { IfOk result (λ buffer. option_map buffer_view buffer ≡ buffer_among (map (λ p. p.now) pieces.now)) }
{
    match pieces {
        [names, words] => {
            let names = numbers(alloc, *names, '.')?;
            let words = numbers(alloc, *words, ',')?;
            Ok(buffer_from(names, words))
        }
        _ => Ok(None),
    }
}

/// `S.B:W,W,..`.
fn buffer(alloc: Global, text: &str) -> Result<Option<Part>, Memory>
    ensures { IfOk result (λ part. option_map said_by part ≡ said_behind text.now Key.Buffer) }
{
    let pieces = pieces(alloc, text, ':')?;
    let buffer = buffer_in(alloc, &pieces)?;
    Ok(buffer.map(Part::Buffer))
}

/// `W,W,..` of the push constants.
fn push(alloc: Global, text: &str) -> Result<Option<Part>, Memory>
    ensures { IfOk result (λ part. option_map said_by part ≡ said_behind text.now Key.Push) }
{
    let words = numbers(alloc, text, ',')?;
    Ok(words.map(Part::Push))
}

/// `I,I,..`.
fn first(alloc: Global, text: &str) -> Result<Option<Part>, Memory>
    ensures { IfOk result (λ part. option_map said_by part ≡ said_behind text.now Key.First) }
{
    let words = numbers(alloc, text, ',')?;
    Ok(words.map(Part::First))
}

fn key_of(name: &str) -> Option<Key>
    ensures { result ≡ key_named name.now }
{
    if name == "groups" {
        Some(Key::Groups)
    } else if name == "buffer" {
        Some(Key::Buffer)
    } else if name == "push" {
        Some(Key::Push)
    } else if name == "first" {
        Some(Key::First)
    } else if name == "steps" {
        Some(Key::Steps)
    } else {
        None
    }
}

/// What stands behind a key.
fn part_behind(alloc: Global, key: Key, text: &str) -> Result<Option<Part>, Memory>
    ensures { IfOk result (λ part. option_map said_by part ≡ said_behind text.now key) }
{
    match key {
        Key::Groups => groups(alloc, text),
        Key::Buffer => buffer(alloc, text),
        Key::Push => push(alloc, text),
        Key::First => first(alloc, text),
        Key::Steps => Ok(number(text).map(Part::Steps)),
    }
}

fn part_among(alloc: Global, pieces: &[&str]) -> Result<Option<Part>, Memory>
    ensures { IfOk result (λ part. option_map said_by part ≡ said_among (map (λ p. p.now) pieces.now)) }
{
    match pieces {
        [name, text] => match key_of(*name) {
            None => Ok(None),
            Some(key) => part_behind(alloc, key, *text),
        },
        _ => Ok(None),
    }
}

/// The part that a text is: a key, `=`, and what is said of it.
pub fn part_of(alloc: Global, text: &str) -> Result<Option<Part>, Memory>
    ensures { IfOk result (λ part. option_map said_by part ≡ said_of text.now) }
{
    let pieces = pieces(alloc, text, '=')?;
    part_among(alloc, &pieces)
}
