// A way from one event to another: the greatest sum over the walks, if there is one.
ghost use Rattle.std.specs.Prelude.{◌≡◌};
ghost use Rattle.engine.specs.Ways.{joined, greater, unheld, higher};
ghost use Rattle.distances.specs.Tables.{Bounded, SmallStep, Rising};

// The sum over two ways with `k` between them, if there are both.
pub(crate) fn sum_over(a: Option<i32>, k: i32, b: Option<i32>) -> Option<i32>
    requires left { Bounded a }
    requires right { Bounded b }
    requires between { SmallStep k }
    ensures { result ≡ joined a k b }
{
    Some(a? + k + b?)
}

// What `a.max(b)` says too, which makes the loop over a row of a table more than twice as slow.
pub(crate) fn greater_of(a: Option<i32>, b: Option<i32>) -> Option<i32>
    ensures { result ≡ greater a b }
{
    b.map_or(a, |sum| Some(higher_of(sum, a)))
}

// The walk of no differences stays where it is.
pub(crate) fn empty_way(x: usize, y: usize) -> Option<i32>
    ensures { result ≡ unheld x y }
{
    (x == y).then_some(0)
}

// Whether the way back and `k` together rise above zero.
pub(crate) fn rises(way: Option<i32>, k: i32) -> bool
    requires bounded { Bounded way }
    requires small { SmallStep k }
    ensures { Rising k way result }
{
    way.is_some_and(|sum| sum + k > 0)
}

// The greater of a number and a way, if there is one.
pub(crate) fn higher_of(best: i32, way: Option<i32>) -> i32
    ensures { result ≡ higher best way }
{
    way.map_or(best, |sum| best.max(sum))
}
