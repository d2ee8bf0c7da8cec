//! Call sites as the text has them.

ghost use Rattle.std.specs.Prelude.{◌≡◌};
ghost use Rattle.dart_meaning.specs.Place.{reading, writing};
ghost use Rattle.dart_meaning.specs.Program as asks;
ghost use Rattle.dart_meaning.specs.Sites.{site};
ghost use Rattle.dart_values.specs.Values.{Text};
ghost use Rattle.dart_meaning.specs.NumberedForm.{shown_place};
ghost use Rattle.site_list.specs.SourceSites.{place_of, selector_of, site_of_source};

use dart_syntax::token::Span;
use program::SelectorKind;

/// Where a site stands: at this byte of the text, where a read comes before a write.
#[derive(Clone, Copy, Debug, PartialEq, Eq)]
pub enum TextPlace {
    Reading(u32),
    Writing(u32),
}

impl TextPlace {
    pub fn byte(self) -> u32
        ensures { (text : Text) → shown_place text (place_of self) ≡ shown_place text (reading result) }
    {
        match self {
            TextPlace::Reading(byte) | TextPlace::Writing(byte) => byte,
        }
    }
}

/// What a site asks for, by a name of the text or of an operator.
#[derive(Clone, Copy, PartialEq, Eq, Hash)]
pub struct SourceSelector<'a> {
    pub kind: SelectorKind,
    pub name: &'a [u8],
    pub count: usize,
}

/// A site of the text.
#[derive(Clone, Copy)]
pub struct SourceSite<'a> {
    pub place: TextPlace,
    pub selector: SourceSelector<'a>,
}

/// A method or an operator with so many arguments.
pub fn calling<'a>(name: &'a [u8], count: usize) -> SourceSelector<'a>
    ensures { selector_of result ≡ asks.calling name.now count }
{
    SourceSelector {
        kind: SelectorKind::Call,
        name,
        count,
    }
}

pub fn getting<'a>(name: &'a [u8]) -> SourceSelector<'a>
    ensures { selector_of result ≡ asks.getting name.now }
{
    SourceSelector {
        kind: SelectorKind::Get,
        name,
        count: 0,
    }
}

pub fn setting<'a>(name: &'a [u8]) -> SourceSelector<'a>
    ensures { selector_of result ≡ asks.setting name.now }
{
    SourceSelector {
        kind: SelectorKind::Set,
        name,
        count: 1,
    }
}

/// A call, or the read of a member.
pub fn read_at<'a>(at: Span, selector: SourceSelector<'a>) -> SourceSite<'a>
    ensures { site_of_source result ≡ site (reading at.start) (selector_of selector.entry) }
{
    SourceSite {
        place: TextPlace::Reading(at.start),
        selector,
    }
}

/// The write of a member or of an element.
pub fn write_at<'a>(at: Span, selector: SourceSelector<'a>) -> SourceSite<'a>
    ensures { site_of_source result ≡ site (writing at.start) (selector_of selector.entry) }
{
    SourceSite {
        place: TextPlace::Writing(at.start),
        selector,
    }
}
