//! Numbers in texts, and lists of numbers.
use crate::pieces::{cut, put};
use fixed_num::{Fixed, NumFault, OutOfMemory, Seq};
use std::alloc::Global;
use std::fmt::Display;
use std::test::Fail;
use text_buffer::TextBuffer;

/// Appends the canonical text of a number, and a newline.
fn append_number(alloc: Global, number: Fixed, out: &mut TextBuffer) -> Result<(), Fail> {
    number.append(alloc, out)?;
    out.push(b'\n')?;
    Ok(())
}

/// Appends the decimal that a text spells, or its fault.
pub fn append_decimal(alloc: Global, text: &[u8], out: &mut TextBuffer) -> Result<(), Fail> {
    match Fixed::read(text) {
        Ok(number) => append_number(alloc, number, out),
        Err(fault) => put(out, format_args!("{fault:?}\n")),
    }
}

/// Two decimals with a mark between them.
fn two_numbers(text: &str, mark: &str) -> Result<(Fixed, Fixed), Fail> {
    let (first, second) = cut(text, mark)?;
    match (
        Fixed::read(first.as_bytes()),
        Fixed::read(second.as_bytes()),
    ) {
        (Ok(first), Ok(second)) => Ok((first, second)),
        _ => Err(Fail::new("no numbers")),
    }
}

/// Appends a number, or `none`.
fn append_maybe(alloc: Global, number: Option<Fixed>, out: &mut TextBuffer) -> Result<(), Fail> {
    match number {
        Some(number) => append_number(alloc, number, out),
        None => put(out, "none\n"),
    }
}

/// Appends the quotient of two decimals with ` / ` between them; `none` where there is none.
pub fn append_quotient(alloc: Global, text: &str, out: &mut TextBuffer) -> Result<(), Fail> {
    let (number, by) = two_numbers(text, " / ")?;
    append_maybe(alloc, number.divide(by), out)
}

/// Appends the sum of two decimals with ` + ` between them; `none` where it is out of range.
pub fn append_sum(alloc: Global, text: &str, out: &mut TextBuffer) -> Result<(), Fail> {
    let (first, second) = two_numbers(text, " + ")?;
    append_maybe(alloc, first.add(second), out)
}

/// Appends the whole number that was read, or its fault.
pub fn append_whole<N: Display + Drop>(
    read: Result<N, NumFault>,
    out: &mut TextBuffer,
) -> Result<(), Fail> {
    match read {
        Ok(number) => put(out, format_args!("{number}\n")),
        Err(fault) => put(out, format_args!("{fault:?}\n")),
    }
}

/// A list with room for so many, to which elements are added at the front.
fn begun(alloc: Global, room: usize) -> Result<Seq<u32>, OutOfMemory> {
    let mut list = Seq::with_room(alloc, room)?;
    list.push(alloc, 7)?;
    list.set(0, 5);
    list.insert(alloc, 0, 3)?;
    Ok(list)
}

/// The same list with two more, at its end and behind its first.
fn grown(alloc: Global, room: usize) -> Result<Seq<u32>, OutOfMemory> {
    let mut list = begun(alloc, room)?;
    list.push(alloc, 9)?;
    list.insert(alloc, 1, 4)?;
    Ok(list)
}

/// Appends the only element of a list, where it stands in place, or the list as it was.
fn append_only(list: Seq<u32>, out: &mut TextBuffer) -> Result<(), Fail> {
    match list.into_one() {
        Ok(element) => put(out, format_args!("one {element}\n")),
        Err(list) => put(out, format_args!("several {:?}\n", list.as_slice())),
    }
}

/// Appends what a list with room for so many is: as a slice, as a vector, and its only element.
pub fn append_grown(alloc: Global, room: &str, out: &mut TextBuffer) -> Result<(), Fail> {
    let room = room.parse()?;
    let list = grown(alloc, room)?;
    put(out, format_args!("slice {:?}\n", list.as_slice()))?;
    put(out, format_args!("vector {:?}\n", list.into_vec(alloc)?))?;
    append_only(grown(alloc, room)?, out)
}

/// Appends what a list of one element is: as a vector, and its only element.
pub fn append_one(alloc: Global, element: &str, out: &mut TextBuffer) -> Result<(), Fail> {
    let element = element.parse()?;
    let list = Seq::of_one(element).into_vec(alloc)?;
    put(out, format_args!("vector {list:?}\n"))?;
    append_only(Seq::of_one(element), out)
}

/// A list without the element at an index, where it has one there.
fn without(alloc: Global, mut list: Seq<u32>, at: usize) -> Seq<u32> {
    if at < list.as_slice().len() {
        list.remove(alloc, at);
    }
    list
}

/// Appends what is left of the list with room for so many without its second element, and of one of one element
/// without that.
pub fn append_left_of(alloc: Global, room: &str, out: &mut TextBuffer) -> Result<(), Fail> {
    let list = without(alloc, grown(alloc, room.parse()?)?, 1);
    put(out, format_args!("{:?}\n", list.as_slice()))?;
    let one = without(alloc, Seq::of_one(5), 0);
    put(out, format_args!("{:?}\n", one.as_slice()))
}
