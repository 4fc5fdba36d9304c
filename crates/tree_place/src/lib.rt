// Places and groups of a tree, its shape, and the questions that its entries put. Helpers for the crates above: some require.
#![tactic(auto)]

ghost use Rattle.std.specs.Prelude.{◌≡◌, ◌+◌, ◌*◌, ◌/◌, ◌%◌, ◌^◌, ◌<◌, eqb, leb};
ghost use Rattle.theory_laws.specs.Refusals.{answered};
ghost use Rattle.theory_merkle.specs.Tree.{group_of, sibling, log2, depth_of, tree_size};
ghost use Rattle.theory_merkle.specs.Shape.{Bounded};
ghost use Rattle.theory_merkle.specs.Questions.{is_pow};
ghost use Rattle.theory_merkle.specs.Numbers.{shape_number, tree_number, leaf_number, node_number, build_number, open_number, root_number};
ghost use Rattle.theory_merkle.specs.PartQuestions.{leaves_number, parents_number};
ghost use Rattle.tree_place.specs.Place.{index, number};

use theory_laws::Refusal;

// The place of a value in a list of values. Its number is private to this crate: no place goes where a group is wanted.
#[derive(Clone, Copy)]
pub struct Place(usize);

// The number of a group of values, and of the node above it at each level of their tree. It is private to this crate too.
#[derive(Clone, Copy)]
pub struct Group(usize);

impl Place {
    // The place of the value with this index.
    pub fn at(i: usize) -> Place
        ensures { index result ≡ i }
    {
        Place(i)
    }

    // The index of the value at a place.
    pub fn index(self) -> usize
        ensures { result ≡ index self }
    {
        self.0
    }

    // The place that a place goes to in as many folds: each takes a pair to one value.
    pub fn folded(self, folds: usize) -> Place
        requires { folds < 64 }
        ensures { index result ≡ index self / 2 ^ folds }
    {
        Place(self.0 >> folds)
    }

    // The first of the pair that folds to a place.
    pub fn first_of_pair(self) -> Place
        requires { index self < 2 ^ 62 }
        ensures { index result ≡ 2 * index self }
    {
        Place(2 * self.0)
    }

    // The second of the pair that folds to a place.
    pub fn second_of_pair(self) -> Place
        requires { index self < 2 ^ 62 }
        ensures { index result ≡ 2 * index self + 1 }
    {
        Place(2 * self.0 + 1)
    }
}

impl Group {
    // The group with this number.
    pub fn numbered(g: usize) -> Group
        ensures { number result ≡ g }
    {
        Group(g)
    }

    // The number of a group, as a message and a buffer have it.
    pub fn number(self) -> usize
        ensures { result ≡ number self }
    {
        self.0
    }

    // The group as many further on.
    pub fn after(self, k: usize) -> Group
        requires { number self + k < 2 ^ 64 }
        ensures { number result ≡ number self + k }
    {
        Group(self.0 + k)
    }

    // The place of a group's first value.
    pub fn first_place(self, width: usize) -> Place
        requires { number self * width < 2 ^ 64 }
        ensures { index result ≡ number self * width }
    {
        Place(self.0 * width)
    }

    // Is it the left child of its parent?
    pub fn is_left(self) -> bool
        ensures { result ≡ eqb (number self % 2) 0 }
    {
        self.0 % 2 == 0
    }

    // The other child of the same parent.
    pub fn sibling(self) -> Group
        requires { number self < 2 ^ 60 }
        ensures { number result ≡ sibling (number self) }
    {
        let g = self.0;
        if g % 2 == 0 {
            return Group(g + 1);
        }
        Group(g - 1)
    }

    // The parent, on the next level of the tree.
    pub fn parent(self) -> Group
        ensures { number result ≡ number self / 2 }
    {
        Group(self.0 / 2)
    }
}

// The group that holds the value at a place. Division by the width is the only way from a place to a group.
pub fn group_of(place: Place, width: usize) -> Group
    requires { 0 < width }
    ensures { number result ≡ group_of (index place) width }
{
    Group(place.0 / width)
}

// Where in its group the value at a place is.
pub fn in_group(place: Place, width: usize) -> usize
    requires { 0 < width }
    ensures { (result ≡ index place % width) × (result < width) }
{
    place.0 % width
}

// Is x a power of two up to 2^m? A `for` that returns early, and no `any`: the closure learns nothing that bounds the shift.
fn is_power(x: usize, m: usize) -> bool
    requires { m < 63 }
    ensures { result ≡ is_pow m x }
{
    for k in 0..m + 1 {
        if x == 1 << k {
            return true;
        }
    }
    false
}

// The logarithm of a power of two; 0 of 0.
fn log2_of(x: usize) -> usize
    ensures { result ≡ log2 x }
{
    if x == 0 {
        return 0;
    }
    (63 - x.leading_zeros()) as usize
}

// Do m items from item `first` on end within a count?
pub fn ends_within(first: usize, m: usize, count: usize) -> bool
    ensures { result ≡ leb (first + m) count }
{
    m <= count && first <= count - m
}

// The shape of a tree: over how many values it is built, and in groups of how many.
#[derive(Clone, Copy, Debug, PartialEq, Eq)]
pub struct Shape {
    pub count: usize,
    pub width: usize,
}

impl Shape {
    // How many groups there are.
    pub fn groups(self) -> usize
        requires { 0 < self.width }
        ensures { result ≡ self.count / self.width }
    {
        self.count / self.width
    }

    // How many digests a path has.
    pub fn depth(self) -> usize
        requires { 0 < self.width }
        ensures { result ≡ depth_of self.count self.width }
    {
        log2_of(self.groups())
    }

    // How many bytes a tree has.
    fn tree_bytes(self) -> usize
        requires { Bounded self.count self.width }
        ensures { result ≡ 32 * tree_size self.count self.width }
    {
        32 * (2 * self.groups() - 1)
    }

    // How many bytes a path has.
    fn path_bytes(self) -> usize
        requires { Bounded self.count self.width }
        ensures { result ≡ 32 * depth_of self.count self.width }
    {
        32 * self.depth()
    }

    // Questions 8, 9 and 10.
    fn questions(self) -> Result<(), Refusal>
        ensures { answered result ≡ shape_number self.count self.width }
    {
        if !is_power(self.count, 24) {
            return Err(Refusal::ValueCount);
        }
        if !is_power(self.width, 9) {
            return Err(Refusal::Width);
        }
        if self.count % self.width != 0 {
            return Err(Refusal::UnevenGroups);
        }
        Ok(())
    }

    // Questions 7 to 10.
    fn tree_questions(self, domain: usize) -> Result<(), Refusal>
        ensures { answered result ≡ tree_number domain self.count self.width }
    {
        if domain > 255 {
            return Err(Refusal::Domain);
        }
        self.questions()
    }

    // The leaf digest of the group of a place: 7, 8, 9, 10, 11, 5.
    pub fn leaf_questions(self, domain: usize, place: Place, values: usize) -> Result<(), Refusal>
        ensures { answered result ≡ leaf_number domain self.count self.width (index place) values }
    {
        self.tree_questions(domain)?;
        if place.0 >= self.count {
            return Err(Refusal::Place);
        }
        if values != 2 * self.width {
            return Err(Refusal::Length);
        }
        Ok(())
    }

    // Build a tree: 7, 8, 9, 10, 5.
    pub fn build_questions(self, domain: usize, values: usize, tree: usize) -> Result<(), Refusal>
        ensures { answered result ≡ build_number domain self.count self.width values tree }
    {
        self.tree_questions(domain)?;
        if values != 2 * self.count {
            return Err(Refusal::Length);
        }
        if tree != self.tree_bytes() {
            return Err(Refusal::Length);
        }
        Ok(())
    }

    // The leaves of groups from one on: 7, 8, 9, 10, 11, 5.
    pub fn leaves_questions(
        self,
        domain: usize,
        first: usize,
        values: usize,
        out: usize,
    ) -> Result<(), Refusal>
        ensures { answered result ≡ leaves_number domain self.count self.width first values out }
    {
        self.tree_questions(domain)?;
        if !ends_within(first, out / 32, self.groups()) {
            return Err(Refusal::Place);
        }
        if values != 2 * self.count {
            return Err(Refusal::Length);
        }
        if out % 32 != 0 {
            return Err(Refusal::Length);
        }
        Ok(())
    }

    // Open a place: 8, 9, 10, 11, 5.
    pub fn open_questions(self, place: Place, tree: usize, path: usize) -> Result<(), Refusal>
        ensures { answered result ≡ open_number self.count self.width (index place) tree path }
    {
        self.questions()?;
        if place.0 >= self.count {
            return Err(Refusal::Place);
        }
        if tree != self.tree_bytes() {
            return Err(Refusal::Length);
        }
        if path != self.path_bytes() {
            return Err(Refusal::Length);
        }
        Ok(())
    }

    // The root that a group and a path lead to: 7, 8, 9, 10, 11, 12, 5.
    pub fn root_questions(
        self,
        domain: usize,
        place: Place,
        values: usize,
        path: usize,
    ) -> Result<(), Refusal>
        ensures { answered result ≡ root_number domain self.count self.width (index place) values path }
    {
        self.tree_questions(domain)?;
        if place.0 >= self.count {
            return Err(Refusal::Place);
        }
        if path != self.path_bytes() {
            return Err(Refusal::PathLength);
        }
        if values != 2 * self.width {
            return Err(Refusal::Length);
        }
        Ok(())
    }
}

// The node digest: 5, 7.
pub fn node_questions(domain: usize, left: usize, right: usize) -> Result<(), Refusal>
    ensures { answered result ≡ node_number domain left right }
{
    if left != 32 || right != 32 {
        return Err(Refusal::Length);
    }
    if domain > 255 {
        return Err(Refusal::Domain);
    }
    Ok(())
}

// The parents of pairs of digests: 5, 7.
pub fn parents_questions(domain: usize, children: usize, out: usize) -> Result<(), Refusal>
    ensures { answered result ≡ parents_number domain children out }
{
    if children % 64 != 0 || out != children / 2 {
        return Err(Refusal::Length);
    }
    if domain > 255 {
        return Err(Refusal::Domain);
    }
    Ok(())
}
