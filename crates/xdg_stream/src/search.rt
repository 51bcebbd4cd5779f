//! A search, in rising order, through the counted prefixes of a finite problem.

ghost use Rattle.std.specs.Prelude.{◌≡◌, ◌≢◌, ◌<◌, ◌≤◌, ◌+◌, ◌-◌, ◌⊎◌, ◌++◌, ◌∷◌, []};
ghost use Rattle.std.specs.Prelude.{ℕ, Bool, true, false, List, Option, Some, None, length, slice_index, take, drop};
ghost use Rattle.std.specs.Vec.{vec_capacity};
ghost use Rattle.xdg_facts.specs.Order.{Less, AtMost};
ghost use Rattle.xdg_facts.specs.Fits.{Fits};
ghost use Rattle.xdg_facts.specs.Closed.{Closed, NoneAfter, SomeAfter};
ghost use Rattle.xdg_facts.specs.Passed.{Charges, Finds};
ghost use Rattle.xdg_facts.specs.Whole.{Whole};
ghost use Rattle.xdg_stream.specs.Problem.{SameProblem};
ghost use Rattle.xdg_stream.specs.Place.{place, Next, Stands};
ghost use Rattle.xdg_stream.specs.Forced.{Backs, Follows};
ghost use Rattle.xdg_stream.specs.Halts.{HaltsAt};
ghost use Rattle.xdg_stream.specs.Lawful.{IsLawful};
ghost use Rattle.xdg_stream.specs.declared.search.Step.{Step};

/// A prefix of a finite problem that grows and shrinks, and stays counted.
///
/// An implementer keeps its own state in step with the prefix: what it knows of the prefix is made by `push` and `follow`, and
/// undone by `back`.
pub trait Front {
    /// What a problem is given as.
    type Given;

    /// The problem. It is the same for all states of one front.
    ghost problem: { Self → Self.Given };

    /// How many values each decision has, in order.
    ghost shape: { Self → List ℕ };

    /// Which prefixes are counted. It is the same for all states of one problem.
    ghost counted: { Self → List ℕ → Type 0 };

    /// The present prefix.
    ghost numbers: { Self → List ℕ };

    /// The numbers of the prefix.
    fn prefix(&self) -> &[u16]
        ensures { result.now ≡ numbers self.now };

    /// How many decisions there are.
    fn decisions(&self) -> usize
        ensures { result ≡ length (shape self.now) };

    /// How many values a decision has.
    fn size(&self, decision: usize) -> u16
        requires { decision < length (shape self.now) }
        ensures { result ≡ slice_index (shape self.now) decision };

    /// Adds a number, if the prefix with it is counted.
    fn push(&mut self, value: u16) -> bool
        requires fits { Fits (shape self.old) (numbers self.old ++ value ∷ []) }
        requires counts { (length (numbers self.old) ≡ 0) ⊎ counted self.old (numbers self.old) }
        ensures kept { problem self.new ≡ problem self.old }
        ensures same { SameProblem (shape self.old) (counted self.old) (shape self.new) (counted self.new) }
        ensures taken { result ≡ true →
            (numbers self.new ≡ numbers self.old ++ value ∷ []) × counted self.old (numbers self.old ++ value ∷ []) }
        ensures refused { result ≡ false →
            (numbers self.new ≡ numbers self.old) × (counted self.old (numbers self.old ++ value ∷ []) → ⊥) };

    /// Adds numbers of which there is no choice, as far as that is known, and so many of them at most. It answers how many.
    fn follow(&mut self, most: u64) -> u64
        requires fits { Fits (shape self.old) (numbers self.old) }
        requires counts { counted self.old (numbers self.old) }
        ensures kept { problem self.new ≡ problem self.old }
        ensures same { SameProblem (shape self.old) (counted self.old) (shape self.new) (counted self.new) }
        ensures follows { Follows (shape self.old) (counted self.old) (numbers self.old) (numbers self.new) most result };

    /// Takes numbers off, the last first, down to one in whose place a greater one may be counted, and answers that one. Where
    /// there is none, all of them.
    fn back(&mut self) -> Option<u16>
        requires fits { Fits (shape self.old) (numbers self.old) }
        requires counts { (length (numbers self.old) ≡ 0) ⊎ counted self.old (numbers self.old) }
        ensures kept { problem self.new ≡ problem self.old }
        ensures same { SameProblem (shape self.old) (counted self.old) (shape self.new) (counted self.new) }
        ensures backs { Backs (shape self.old) (counted self.old) (numbers self.old) result (numbers self.new) };

    /// Each front of a counted prefix is counted.
    ghost closed: { (x : Self) → Closed (counted x) };
}

/// What a step of a search came to.
#[derive(Clone, Copy, PartialEq, Eq, Debug)]
pub enum Step {
    /// The front is a whole vector.
    Found,
    /// No counted prefix is left.
    End,
    /// The budget is spent, and a counted prefix is left.
    Spent,
}

/// The value to try behind a front, if it is one of the values of the next decision.
fn candidate<F: Front>(front: &F, value: u32) -> Option<u16>
    requires { length (F.numbers front.now) ≤ length (F.shape front.now) }
    ensures some { (v : ℕ) → result ≡ Some v → (v ≡ value) × (v < slice_index (F.shape front.now) (length (F.numbers front.now))) }
    ensures none { result ≡ None → slice_index (F.shape front.now) (length (F.numbers front.now)) ≤ value }
{
    let len = front.prefix().len();
    if len == front.decisions() {
        return None;
    }
    if value >= u32::from(front.size(len)) {
        return None;
    }
    Some(value as u16)
}

/// Pushes the numbers of a start as far as they are counted, and answers the value to try next.
fn descend<F: Front>(front: &mut F, after: &[u16]) -> u32
    requires empty { F.numbers front.old ≡ [] }
    requires fits { Fits (F.shape front.old) after.now }
    ensures problem { F.problem front.new ≡ F.problem front.old }
    ensures same { SameProblem (F.shape front.old) (F.counted front.old) (F.shape front.new) (F.counted front.new) }
    ensures stands { Stands (F.shape front.old) (F.counted front.old) (F.numbers front.new) }
    ensures begins { take (length (F.numbers front.new)) after.now ≡ F.numbers front.new }
    ensures next { Next (F.shape front.old) (F.counted front.old) after.now (place (F.numbers front.new) result) }
{
    for number in after {
        if !front.push(*number) {
            return u32::from(*number) + 1;
        }
    }
    0
}

/// Keeps the numbers of a prefix, the first of which are kept already.
fn keep(reached: &mut Vec<u16>, first: usize, numbers: &[u16])
    requires first { first ≤ length numbers.now }
    requires room { length numbers.now ≤ vec_capacity reached.old }
    ensures items { reached.new.items ≡ take first reached.old.items ++ drop first numbers.now }
    ensures room { vec_capacity reached.old ≤ vec_capacity reached.new }
{
    reached.truncate(first);
    let kept = reached.extend_from_slice(&numbers[first..]);
    prove!(kept.is_ok());
}

/// A search: its front, the value that it tries next behind the front, and what it has charged.
#[derive(Drop)]
pub struct Search<F: Front> {
    front: F,
    value: u32,
    // The numbers of the prefix that was charged last, and before that those of the start. The front is one of its fronts.
    reached: Vec<u16>,
    charged: u64,
    budget: u64,
    done: Option<Step>,
}

impl<F: Front> Search<F> {
    /// A search with a budget that goes on right behind a start. The start need not be counted. The empty one comes before
    /// every prefix. It comes in a vector with room for the numbers of each prefix.
    pub fn start(front: F, budget: u64, after: Vec<u16>) -> Search<F>
        requires empty { F.numbers front ≡ [] }
        requires fits { Fits (F.shape front) after.items }
        requires room { length (F.shape front) ≤ vec_capacity after }
        ensures problem { F.problem result.front ≡ F.problem front }
        ensures same { SameProblem (F.shape front) (F.counted front) (F.shape result.front) (F.counted result.front) }
        ensures lawful { IsLawful (F.shape result.front) (F.counted result.front) (F.numbers result.front) result.reached.items (vec_capacity result.reached)
            result.done result.charged result.budget }
        ensures next { Next (F.shape front) (F.counted front) after.items (place (F.numbers result.front) result.value) }
        ensures fresh { (result.charged ≡ 0) × (result.budget ≡ budget) × (result.done ≡ None) }
        ensures reached { result.reached.items ≡ after.items }
    {
        let mut front = front;
        let value = descend(&mut front, after.as_slice());
        Search {
            front,
            value,
            reached: after,
            charged: 0,
            budget,
            done: None,
        }
    }

    /// Goes on to the next whole vector, and charges each counted prefix on the way.
    fn seek(&mut self) -> Step
        requires stands { Stands (F.shape self.old.front) (F.counted self.old.front) (F.numbers self.old.front) }
        requires begins { take (length (F.numbers self.old.front)) self.old.reached.items ≡ F.numbers self.old.front }
        requires room { length (F.shape self.old.front) ≤ vec_capacity self.old.reached }
        requires within { self.old.charged ≤ self.old.budget }
        ensures problem { F.problem self.new.front ≡ F.problem self.old.front }
        ensures same { SameProblem (F.shape self.old.front) (F.counted self.old.front) (F.shape self.new.front) (F.counted self.new.front) }
        ensures found { result ≡ Step.Found →
            Stands (F.shape self.old.front) (F.counted self.old.front) (F.numbers self.new.front)
            × Next (F.shape self.old.front) (F.counted self.old.front) (F.numbers self.new.front) (place (F.numbers self.new.front) self.new.value) }
        ensures finds { result ≡ Step.Found → (from : List ℕ) →
            Next (F.shape self.old.front) (F.counted self.old.front) from (place (F.numbers self.old.front) self.old.value) →
            Less from (F.numbers self.new.front)
            × Finds (F.shape self.old.front) (F.counted self.old.front) from (F.numbers self.new.front) (self.new.charged - self.old.charged) }
        ensures reached { result ≡ Step.Found → self.new.reached.items ≡ F.numbers self.new.front }
        ensures whole { result ≡ Step.Found → Whole (F.shape self.old.front) (F.counted self.old.front) (F.numbers self.new.front) }
        ensures end { result ≡ Step.End → (from : List ℕ) →
            Next (F.shape self.old.front) (F.counted self.old.front) from (place (F.numbers self.old.front) self.old.value) →
            HaltsAt (F.shape self.old.front) (F.counted self.old.front) from (self.new.charged - self.old.charged)
            (NoneAfter (F.shape self.old.front) (F.counted self.old.front)) self.old.reached.items self.new.reached.items }
        ensures spent { result ≡ Step.Spent → (self.new.charged ≡ self.old.budget) × ((from : List ℕ) →
            Next (F.shape self.old.front) (F.counted self.old.front) from (place (F.numbers self.old.front) self.old.value) →
            HaltsAt (F.shape self.old.front) (F.counted self.old.front) from (self.new.charged - self.old.charged)
            (SomeAfter (F.shape self.old.front) (F.counted self.old.front)) self.old.reached.items self.new.reached.items) }
        ensures charged { (self.old.charged ≤ self.new.charged) × (self.new.charged ≤ self.old.budget) }
        ensures forward { result ≡ Step.Found → self.old.charged < self.new.charged }
        ensures kept { (self.new.budget ≡ self.old.budget) × (self.new.done ≡ self.old.done) }
        ensures room { vec_capacity self.old.reached ≤ vec_capacity self.new.reached }
    {
        'steps: loop {
            match candidate(&self.front, self.value) {
                None => match self.front.back() {
                    None => return Step::End,
                    Some(value) => self.value = u32::from(value) + 1,
                },
                Some(value) => {
                    if self.front.push(value) {
                        if self.charged == self.budget {
                            return Step::Spent;
                        }
                        let first = self.front.prefix().len() - 1;
                        self.charged += 1;
                        self.charged += self.front.follow(self.budget - self.charged);
                        self.value = 0;
                        keep(&mut self.reached, first, self.front.prefix());
                        if self.front.prefix().len() == self.front.decisions() {
                            return Step::Found;
                        }
                    } else {
                        self.value += 1;
                    }
                }
            }
        }
    }

    /// Goes on to the next whole vector that is counted. After `End` and `Spent` it answers the same again and changes
    /// nothing.
    pub fn advance(&mut self) -> Step
        requires lawful { IsLawful (F.shape self.old.front) (F.counted self.old.front) (F.numbers self.old.front) self.old.reached.items
            (vec_capacity self.old.reached) self.old.done self.old.charged self.old.budget }
        ensures lawful { IsLawful (F.shape self.new.front) (F.counted self.new.front) (F.numbers self.new.front) self.new.reached.items
            (vec_capacity self.new.reached) self.new.done self.new.charged self.new.budget }
        ensures problem { F.problem self.new.front ≡ F.problem self.old.front }
        ensures same { SameProblem (F.shape self.old.front) (F.counted self.old.front) (F.shape self.new.front) (F.counted self.new.front) }
        ensures found { result ≡ Step.Found → (self.old.done ≡ None) × (self.new.done ≡ None) ×
            Next (F.shape self.old.front) (F.counted self.old.front) (F.numbers self.new.front) (place (F.numbers self.new.front) self.new.value) }
        ensures whole { result ≡ Step.Found →
            Fits (F.shape self.old.front) (F.numbers self.new.front)
            × Whole (F.shape self.old.front) (F.counted self.old.front) (F.numbers self.new.front) }
        // What was found is the prefix that was charged last.
        ensures reached { result ≡ Step.Found → self.new.reached.items ≡ F.numbers self.new.front }
        // Whatever the search went on right behind of, the counted prefixes from there on up to the front are charged, each
        // once, and only the front is whole.
        ensures finds { result ≡ Step.Found → (from : List ℕ) →
            Next (F.shape self.old.front) (F.counted self.old.front) from (place (F.numbers self.old.front) self.old.value) →
            Less from (F.numbers self.new.front)
            × Finds (F.shape self.old.front) (F.counted self.old.front) from (F.numbers self.new.front) (self.new.charged - self.old.charged) }
        // Those up to some prefix are charged, none of them whole, and no counted prefix comes after it.
        ensures end { result ≡ Step.End → self.old.done ≡ None → (from : List ℕ) →
            Next (F.shape self.old.front) (F.counted self.old.front) from (place (F.numbers self.old.front) self.old.value) →
            HaltsAt (F.shape self.old.front) (F.counted self.old.front) from (self.new.charged - self.old.charged)
            (NoneAfter (F.shape self.old.front) (F.counted self.old.front)) self.old.reached.items self.new.reached.items }
        // The whole budget is charged, for prefixes that are not whole, and another counted prefix comes after them.
        ensures spent { result ≡ Step.Spent → self.old.done ≡ None → (self.new.charged ≡ self.old.budget) × ((from : List ℕ) →
            Next (F.shape self.old.front) (F.counted self.old.front) from (place (F.numbers self.old.front) self.old.value) →
            HaltsAt (F.shape self.old.front) (F.counted self.old.front) from (self.new.charged - self.old.charged)
            (SomeAfter (F.shape self.old.front) (F.counted self.old.front)) self.old.reached.items self.new.reached.items) }
        ensures charged { self.old.charged ≤ self.new.charged }
        ensures forward { result ≡ Step.Found → self.old.charged < self.new.charged }
        ensures budget { self.new.budget ≡ self.old.budget }
        ensures stops { result ≢ Step.Found → self.new.done ≡ Some result }
        ensures repeats { (step : Step) → self.old.done ≡ Some step → (result ≡ step) × (self.new ≡ self.old) }
    {
        if let Some(step) = self.done {
            return step;
        }
        let step = self.seek();
        match step {
            Step::Found => {}
            Step::End | Step::Spent => self.done = Some(step),
        }
        step
    }

    /// The front: the whole vector that was found last, where the last call found one.
    pub fn front(&self) -> &F
        ensures { result.now ≡ self.now.front }
    {
        &self.front
    }

    /// How many counted prefixes have been charged since the start.
    pub fn charged(&self) -> u64
        ensures { result ≡ self.now.charged }
    {
        self.charged
    }
}
