//! The conditions of which principles are made.

/// A condition of a principle: what it asks of each tuple of nodes and labels in its range. A verdict names the first
/// condition that fails and the least tuple for which it does. The relations are those of Debusmann 2006, chapters 4
/// and 7, cut into conditions that can be named.
#[derive(Clone, Copy, Debug, PartialEq, Eq)]
pub enum Condition {
    /// `v`: no path leads from v back to v.
    Cycle,
    /// The number of nodes without mother: it is 1.
    Roots,
    /// `v`: at most one edge leads into v.
    Mothers,
    /// `u v`: at most one label joins u to v.
    Pair,
    /// `v l`: the entry of v allows the number of edges with label l into v.
    InCount,
    /// `v l`: the entry of v allows the number of edges with label l out of v.
    OutCount,
    /// `u x y`: where the order puts an item of u in which x stands before one in which y stands, x stands to the left of y.
    Order,
    /// `u v w`: where an edge leads from u to v, and w stands between them, u is above w.
    Between,
    /// `v`: the value of v is one that its entry allows.
    Agr,
    /// `u l v`: where u -l-> v and the entry of u asks for agreement at l, the two values are equal.
    Agree,
    /// `u l v`: where u -l-> v and the entry of u governs at l, the value of v is one of those that it names.
    Govern,
    /// `u v`: what is below u on the first dimension is below it on the second.
    Below,
    /// `w v`: where a path on the second dimension from w to v ends with a label that w blocks, w is above v on the first.
    Blocked,
    /// `u l v`: an edge u -l-> v on the first dimension is linked to the second as the entry of u asks.
    Link,
    /// No node and no label: the formula is true.
    Rule,
    /// No node and no label: the cost is below the bound.
    Bound,
}
