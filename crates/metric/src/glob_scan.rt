//! Looking for a glob in a text.
ghost use Rattle.std.specs.Prelude.{◌≡◌, ℕ, ◌∷◌, [], chars, MatchOption, false};
ghost use Rattle.metric.specs.Glob.{is_in, matches, stands_for};
ghost use Rattle.metric.specs.declared.glob.Element.TheVariants.{Run};
ghost use Rattle.metric.specs.GlobScan.{looking, IsScan, IsStep};

use crate::glob::Element;

/// The first character of a text and the text behind it.
pub(crate) fn first_character(text: &str) -> Option<(char, &str)>
    ensures { MatchOption result (chars text.now ≡ [])
        (λ first. chars text.now ≡ first.0 ∷ chars first.1.now) }
{
    let mut rest = text.chars();
    let first = rest.next()?;
    Some((first, rest.as_str()))
}

/// Does the element stand for this one character?
fn stands_for(element: &Element, c: char) -> bool
    ensures { result ≡ stands_for element.now c }
{
    match element {
        Element::Run => false,
        Element::One => true,
        Element::Exactly(wanted) => c == *wanted,
        Element::OneOf(ranges) => is_in(ranges.as_slice(), c),
        Element::NoneOf(ranges) => !is_in(ranges.as_slice(), c),
    }
}

/// Is the character in one of the ranges?
fn is_in(ranges: &[(char, char)], c: char) -> bool
    ensures { result ≡ is_in ranges.now c }
{
    ranges.iter().any(|range| range.0 <= c && c <= range.1)
}

/// How far a text was looked through: the elements and the text that are left; and the elements behind the
/// last run, with the text at which they were tried last.
#[derive(Clone, Copy)]
pub(crate) struct Scan<'a> {
    pub elements: &'a [Element],
    pub text: &'a str,
    pub again: Option<(&'a [Element], &'a str)>,
}

/// What a step of a scan gives: its answer, or the scan a step further.
#[derive(Clone, Copy)]
pub(crate) enum Step<'a> {
    Done(bool),
    On(Scan<'a>),
}

/// Do the elements match the whole text? The scan goes back to the last run alone.
pub(crate) fn found<'a>(elements: &'a [Element], text: &'a str) -> bool
    ensures { result ≡ matches elements.now (chars text.now) }
{
    let mut scan = Scan {
        elements,
        text,
        again: None,
    };
    loop {
        match advance(scan) {
            Step::Done(answer) => return answer,
            Step::On(next) => scan = next,
        }
    }
}

/// One step further: past a run, past a character, or back to the last run.
fn advance<'a>(scan: Scan<'a>) -> Step<'a>
    ensures { (most : ℕ) → IsScan most (looking scan.entry) → IsStep most (looking scan.entry) result }
{
    match scan.elements.split_first() {
        Some((element, behind)) => {
            if let Element::Run = element {
                return past_run(scan, behind);
            }
            past_one(scan, element, behind)
        }
        None => at_end(scan),
    }
}

/// At the end of the elements: they match where the text has ended too.
fn at_end<'a>(scan: Scan<'a>) -> Step<'a>
    requires { scan.elements.now ≡ [] }
    ensures { (most : ℕ) → IsScan most (looking scan.entry) → IsStep most (looking scan.entry) result }
{
    match first_character(scan.text) {
        Some(_) => retry(scan),
        None => Step::Done(true),
    }
}

/// Past a run: the elements behind it are tried here first.
fn past_run<'a>(scan: Scan<'a>, behind: &'a [Element]) -> Step<'a>
    requires { scan.elements.now ≡ Run ∷ behind.now }
    ensures { (most : ℕ) → IsScan most (looking scan.entry) → IsStep most (looking scan.entry) result }
{
    Step::On(Scan {
        elements: behind,
        text: scan.text,
        again: Some((behind, scan.text)),
    })
}

/// Past an element that isn't a run, and a character that it stands for; else back to the last run.
fn past_one<'a>(scan: Scan<'a>, element: &'a Element, behind: &'a [Element]) -> Step<'a>
    requires elements { scan.elements.now ≡ element.now ∷ behind.now }
    requires single { element.now ≡ Run → ⊥ }
    ensures { (most : ℕ) → IsScan most (looking scan.entry) → IsStep most (looking scan.entry) result }
{
    let Some((c, text)) = first_character(scan.text) else {
        return retry(scan);
    };
    if !stands_for(element, c) {
        return retry(scan);
    }
    Step::On(Scan {
        elements: behind,
        text,
        again: scan.again,
    })
}

/// Back to the last run, which takes one character more, where what is left doesn't match.
fn retry<'a>(scan: Scan<'a>) -> Step<'a>
    requires { matches scan.elements.now (chars scan.text.now) ≡ false }
    ensures { (most : ℕ) → IsScan most (looking scan.entry) → IsStep most (looking scan.entry) result }
{
    let Some((elements, tried)) = scan.again else {
        return Step::Done(false);
    };
    let Some((_, text)) = first_character(tried) else {
        return Step::Done(false);
    };
    Step::On(Scan {
        elements,
        text,
        again: Some((elements, text)),
    })
}
