//! Blocks of analyses, as they are written and pushed by calls that no command makes.

ghost use Rattle.std.specs.Prelude.{◌≡◌, [], ◌∷◌, IfOk};
ghost use Rattle.xdg_text.specs.Examples.{agr, on, id, lp, german, reading};

use std::alloc::Global;
use std::test::Fail;
use xdg_base::{Bytes, DimId, EntryNo, LabelId, List, NodeId, OutOfMemory, Text};
use xdg_io::MemSink;
use xdg_problem::{
    Analysis, AttrPlan, DimPlan, Edge, Parts, Problem, SentenceWord, SharedList, Shown,
};
use xdg_text::{push, write, write2};

fn one<T: Drop>(alloc: Global, item: T) -> Result<List<T>, OutOfMemory>
    ensures { IfOk result (λ list. list ≡ item ∷ []) }
{
    let mut list = List::new(alloc);
    list.push(item)?;
    Ok(list)
}

fn two<T: Drop>(alloc: Global, first: T, second: T) -> Result<List<T>, OutOfMemory>
    ensures { IfOk result (λ list. list ≡ first ∷ second ∷ []) }
{
    let mut list = List::new(alloc);
    list.push(first)?;
    list.push(second)?;
    Ok(list)
}

fn tuple(alloc: Global, first: &str, second: &str) -> Result<Shown, OutOfMemory>
    ensures { IfOk result (λ value. value ≡ Shown.Many (first.now ∷ second.now ∷ [])) }
{
    let first = Text::from_str(alloc, first)?;
    let second = Text::from_str(alloc, second)?;
    Ok(Shown::Many(two(alloc, first, second)?))
}

fn agr_plan(alloc: Global) -> Result<AttrPlan, OutOfMemory>
    ensures { IfOk result (λ plan. plan ≡ agr) }
{
    let name = Text::from_str(alloc, "agr")?;
    let first = tuple(alloc, "m", "nom")?;
    let second = tuple(alloc, "f", "gen")?;
    let values = two(alloc, first, second)?;
    Ok(AttrPlan { name, values })
}

fn on_plan(alloc: Global) -> Result<AttrPlan, OutOfMemory>
    ensures { IfOk result (λ plan. plan ≡ on) }
{
    let name = Text::from_str(alloc, "on")?;
    let first = Shown::One(Text::from_str(alloc, "n")?);
    let second = Shown::One(Text::from_str(alloc, "v f")?);
    let values = two(alloc, first, second)?;
    Ok(AttrPlan { name, values })
}

fn word(alloc: Global, text: &str, at: u32) -> Result<SentenceWord, OutOfMemory>
    ensures { IfOk result (λ made. made ≡ record { text = text.now; at = at }) }
{
    let text = Text::from_str(alloc, text)?;
    Ok(SentenceWord { text, at })
}

fn id_plan(alloc: Global) -> Result<DimPlan, OutOfMemory>
    ensures { IfOk result (λ plan. plan ≡ id) }
{
    let name = Text::from_str(alloc, "id")?;
    let agr = agr_plan(alloc)?;
    let attrs = one(alloc, agr)?;
    Ok(DimPlan {
        name,
        labels: List::new(alloc),
        attrs,
        graph: true,
    })
}

fn lp_plan(alloc: Global) -> Result<DimPlan, OutOfMemory>
    ensures { IfOk result (λ plan. plan ≡ lp) }
{
    let name = Text::from_str(alloc, "lp")?;
    let label = Text::from_str(alloc, "detf")?;
    let labels = one(alloc, label)?;
    let on = on_plan(alloc)?;
    let agr = agr_plan(alloc)?;
    let attrs = two(alloc, on, agr)?;
    Ok(DimPlan {
        name,
        labels,
        attrs,
        graph: true,
    })
}

#[tactic(auto, using(xdg_text::proofs::Small::small_problem))]
fn problem(alloc: Global) -> Result<Problem, OutOfMemory>
    ensures { IfOk result (λ problem. problem ≡ german) }
{
    let first = word(alloc, "der", 0)?;
    let second = word(alloc, "Frau", 4)?;
    let words = two(alloc, first, second)?;
    let first = SharedList::of(alloc, one(alloc, EntryNo(9))?)?;
    let second = SharedList::of(alloc, one(alloc, EntryNo(3))?)?;
    let candidates = two(alloc, first, second)?;
    let id = id_plan(alloc)?;
    let lp = lp_plan(alloc)?;
    let dims = SharedList::of(alloc, two(alloc, id, lp)?)?;
    Ok(Problem::of(Parts {
        words,
        candidates,
        dims,
        groups: List::new(alloc),
    }))
}

fn analysis(alloc: Global) -> Result<Analysis, OutOfMemory>
    ensures { IfOk result (λ analysis. analysis ≡ reading) }
{
    let entries = List::from_slice(alloc, &[EntryNo(9), EntryNo(3)])?;
    let attrs = List::from_slice(alloc, &[0, 1, 1, 0, 0, 1])?;
    let edge = Edge {
        dim: DimId(1),
        mother: NodeId(1),
        label: LabelId(0),
        daughter: NodeId(0),
    };
    let edges = one(alloc, edge)?;
    Ok(Analysis {
        entries,
        attrs,
        edges,
    })
}

const BLOCK: &[u8] = b"analysis 12
word 1 \"der\" 10
word 2 \"Frau\" 4
attr id 1 agr [m nom]
attr id 2 agr [f gen]
attr lp 1 on \"v f\"
attr lp 1 agr [m nom]
attr lp 2 on n
attr lp 2 agr [f gen]
edge lp 2 detf 1
end
";

#[test]
fn a_block_is_written(rt: HostRuntime) -> Result<(), Fail> {
    let alloc = rt.alloc();
    let problem = problem(alloc)?;
    let analysis = analysis(alloc)?;
    let mut sink = MemSink::new(alloc, 200, 7, &[])?;
    assert_eq!(rt; write(&problem, 12, &analysis, &mut sink), Ok(()));
    assert_eq!(rt; sink.bytes(), BLOCK);
    Ok(())
}

#[test]
fn text_two_is_written(rt: HostRuntime) -> Result<(), Fail> {
    let alloc = rt.alloc();
    let problem = problem(alloc)?;
    let analysis = analysis(alloc)?;
    let mut sink = MemSink::new(alloc, 300, 7, &[])?;
    assert_eq!(rt; write2(&problem, 12, &analysis, &mut sink), Ok(()));
    let front = b"xdg 2\nanalysis 12\ncounts 2 6 1\n";
    assert_eq!(rt;
        sink.bytes().strip_prefix(front.as_slice()),
        BLOCK.strip_prefix(b"analysis 12\n".as_slice())
    );
    Ok(())
}

#[test]
fn a_block_is_pushed(rt: HostRuntime) -> Result<(), Fail> {
    let alloc = rt.alloc();
    let problem = problem(alloc)?;
    let analysis = analysis(alloc)?;
    let mut bytes = Bytes::new(alloc);
    push(alloc, &mut bytes, &problem, 12, &analysis)?;
    assert_eq!(rt; bytes.as_slice(), BLOCK);
    Ok(())
}
