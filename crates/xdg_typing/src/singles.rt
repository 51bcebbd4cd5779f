//! Parts of a dimension that stand again where they may stand once.

ghost use Rattle.std.specs.Prelude.{◌≡◌};
ghost use Rattle.xdg_names.specs.First.{first};
ghost use Rattle.xdg_types.specs.Names.{single};
ghost use Rattle.xdg_typing.specs.Listed as listing;

use xdg_ast::{DimPart, DimPartKind};
use xdg_base::{Cause, Fault};
use xdg_names::earlier;

/// Which of the parts that may stand once have stood.
#[derive(Clone, Copy, Debug)]
pub(crate) struct Stood {
    /// The type of the labels.
    labels: bool,
    /// The type of the attributes.
    attributes: bool,
    /// The type of the features.
    features: bool,
}

/// The first of these parts that may stand once and has stood before.
pub(crate) fn parts_again(parts: &[DimPart]) -> Option<Fault>
    ensures { result ≡ first (listing.parts_again listing.none_stood parts.now) }
{
    let mut stood = Stood {
        labels: false,
        attributes: false,
        features: false,
    };
    let mut found = None;
    for part in parts {
        found = earlier(found, part_again(stood, part));
        stood = with_part(stood, &part.kind);
    }
    found
}

fn part_again(stood: Stood, part: &DimPart) -> Option<Fault>
    ensures { result ≡ first (listing.part_again stood part.now) }
{
    if has_stood(stood, &part.kind) {
        return Some(Fault::at(Cause::Twice, part.span.start));
    }
    None
}

fn has_stood(stood: Stood, part: &DimPartKind) -> bool
    ensures { result ≡ listing.has_stood stood (single part.now) }
{
    match part {
        DimPartKind::LabelType(_) => stood.labels,
        DimPartKind::AttrsType(_) => stood.attributes,
        DimPartKind::EntryType(_) => stood.features,
        _ => false,
    }
}

fn with_part(stood: Stood, part: &DimPartKind) -> Stood
    ensures { result ≡ listing.with_part stood (single part.now) }
{
    match part {
        DimPartKind::LabelType(_) => Stood {
            labels: true,
            attributes: stood.attributes,
            features: stood.features,
        },
        DimPartKind::AttrsType(_) => Stood {
            labels: stood.labels,
            attributes: true,
            features: stood.features,
        },
        DimPartKind::EntryType(_) => Stood {
            labels: stood.labels,
            attributes: stood.attributes,
            features: true,
        },
        _ => stood,
    }
}
