// What is reached from a start, computed in a plain way: a number that a reached one leads to is added, again and again, until there is none.
use crate::graph::SIZE;
use crate::shapes::Shape;

// A number that is not marked, and that a marked one leads to.
fn leading_out(shape: Shape, marks: &[bool; 1024]) -> Option<u32> {
    (0..SIZE)
        .filter(|x| marks[*x as usize])
        .flat_map(|x| (0..shape.degree()).map(move |place| shape.neighbour(x, place)))
        .find(|y| *y < SIZE && !marks[*y as usize])
}

pub fn closure(shape: Shape, start: u32) -> [bool; 1024] {
    let mut marks = [false; 1024];
    let mut next = Some(start);
    // each round adds a number, so that there are no more rounds than numbers
    for _ in 0..SIZE {
        let Some(mark) = next.and_then(|number| marks.get_mut(number as usize)) else {
            break;
        };
        *mark = true;
        next = leading_out(shape, &marks);
    }
    marks
}
