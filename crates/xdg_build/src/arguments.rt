//! The arguments of a principle use, sort by sort.

ghost use Rattle.std.specs.Prelude.{◌≡◌, ◌++◌, map, flat_map, All, IfOk};
ghost use Rattle.xdg_base.specs.declared.ids.LabelId.{LabelId};
ghost use Rattle.xdg_build.specs.Groups as groups;
ghost use Rattle.xdg_build.specs.Rows.{IsSmallArg};

use std::alloc::Global;
use xdg_base::{AttrId, LabelId, List, OutOfMemory};
use xdg_check::Arg;

fn add_feature(arg: &Arg, made: &mut List<usize>) -> Result<(), OutOfMemory>
    ensures { IfOk result (λ _. made.new ≡ made.old ++ groups.features_in arg.now) }
{
    match arg {
        Arg::Feature(place) => made.push(*place),
        Arg::Attr(_) | Arg::Labels(_) | Arg::Truth(_) => Ok(()),
    }
}

/// The places of the features that the arguments name.
#[tactic(auto, using(xdg_facts::proofs::Turns::flat_turn))]
pub(crate) fn feature_places(alloc: Global, args: &[Arg]) -> Result<List<usize>, OutOfMemory>
    ensures { IfOk result (λ made. made ≡ flat_map groups.features_in args.now) }
{
    let mut made = List::new(alloc);
    for arg in args {
        add_feature(arg, &mut made)?;
    }
    Ok(made)
}

fn add_attr(arg: &Arg, made: &mut List<AttrId>) -> Result<(), OutOfMemory>
    requires { IsSmallArg arg.now }
    ensures { IfOk result (λ _. made.new ≡ made.old ++ groups.attrs_in arg.now) }
{
    match arg {
        Arg::Attr(place) => made.push(AttrId(*place as u8)),
        Arg::Feature(_) | Arg::Labels(_) | Arg::Truth(_) => Ok(()),
    }
}

/// The attributes that the arguments name.
#[tactic(auto, using(xdg_facts::proofs::Turns::flat_turn))]
pub(crate) fn attrs(alloc: Global, args: &[Arg]) -> Result<List<AttrId>, OutOfMemory>
    requires { All IsSmallArg args.now }
    ensures { IfOk result (λ made. made ≡ flat_map groups.attrs_in args.now) }
{
    let mut made = List::new(alloc);
    for arg in args {
        add_attr(arg, &mut made)?;
    }
    Ok(made)
}

fn add_numbers(numbers: &[u8], made: &mut List<LabelId>) -> Result<(), OutOfMemory>
    ensures { IfOk result (λ _. made.new ≡ made.old ++ map (λ n. record { 0 = n }) numbers.now) }
{
    for number in numbers {
        made.push(LabelId(*number))?;
    }
    Ok(())
}

fn add_labels(arg: &Arg, made: &mut List<LabelId>) -> Result<(), OutOfMemory>
    ensures { IfOk result (λ _. made.new ≡ made.old ++ groups.labels_in arg.now) }
{
    match arg {
        Arg::Labels(numbers) => add_numbers(numbers.as_slice(), made),
        Arg::Feature(_) | Arg::Attr(_) | Arg::Truth(_) => Ok(()),
    }
}

/// The labels that the arguments list.
#[tactic(auto, using(xdg_facts::proofs::Turns::flat_turn))]
pub(crate) fn labels(alloc: Global, args: &[Arg]) -> Result<List<LabelId>, OutOfMemory>
    ensures { IfOk result (λ made. made ≡ flat_map groups.labels_in args.now) }
{
    let mut made = List::new(alloc);
    for arg in args {
        add_labels(arg, &mut made)?;
    }
    Ok(made)
}

fn add_truth(arg: &Arg, made: &mut List<bool>) -> Result<(), OutOfMemory>
    ensures { IfOk result (λ _. made.new ≡ made.old ++ groups.truths_in arg.now) }
{
    match arg {
        Arg::Truth(holds) => made.push(*holds),
        Arg::Feature(_) | Arg::Attr(_) | Arg::Labels(_) => Ok(()),
    }
}

/// The truth values among the arguments.
#[tactic(auto, using(xdg_facts::proofs::Turns::flat_turn))]
pub(crate) fn truths(alloc: Global, args: &[Arg]) -> Result<List<bool>, OutOfMemory>
    ensures { IfOk result (λ made. made ≡ flat_map groups.truths_in args.now) }
{
    let mut made = List::new(alloc);
    for arg in args {
        add_truth(arg, &mut made)?;
    }
    Ok(made)
}
