// Scratch for clauses. There is no heap, so a component's clauses are the first of an array of 1024.
ghost use Rattle.std.specs.Prelude.{◌*◌, ◌<◌, ◌^◌, IfSome};
ghost use Rattle.std.specs.Mem.{type_size};

use std::mem::size_of_val;

// What such an array holds before it is filled: a clause, since there is no blank one. None where there is no clause, or where the array
// would not fit in memory: no proof knows the size of a type parameter, so it is tested, and the compiler drops the test.
pub fn blank<C: Copy>(clauses: &[C]) -> Option<C>
    ensures { IfSome result (λ c. 1024 * type_size C.row < 2 ^ 63) }
{
    let first = clauses.first()?;
    (size_of_val(first) < 4294967296).then_some(*first)
}
