//! What is printed of a live controller.
ghost use Rattle.std.specs.Prelude.{map};
ghost use Rattle.listing.specs.Writing.{Adds};
ghost use Rattle.listing.specs.Shows.{word_line, course_line, axis_lines, shown};

use drive::axis::{AXES, Axis};
use std::alloc::AllocError;

/// Where an axis is, and where it is going.
#[derive(Clone, Copy, Debug, PartialEq, Eq)]
pub struct Course {
    pub position: i64,
    pub target: i64,
}

// By `format!`, as `write!` to a `Vec<u8>` answers an `io::Error`.
fn print_word(out: &mut Vec<u8>, word: u16) -> Result<(), AllocError>
    ensures { Adds result out.old out.new (word_line word) }
{
    let line = format!(in *out.allocator(); "word {word:04X}\n")?;
    out.extend_from_slice(line.as_bytes())
}

/// The axis's letter, position and target.
fn print_axis(out: &mut Vec<u8>, axis: Axis, course: Course) -> Result<(), AllocError>
    ensures { Adds result out.old out.new (course_line axis course) }
{
    let Course { position, target } = course;
    let line = format!(in *out.allocator(); "{axis} {position} {target}\n")?;
    out.extend_from_slice(line.as_bytes())
}

/// The axes, in order.
// One loop for rows and courses would take the printer and clauses on it, and be longer.
fn print_axes(out: &mut Vec<u8>, courses: &[Course; AXES]) -> Result<(), AllocError>
    ensures { Adds result out.old out.new (axis_lines (map (λ c. c.position) courses.now) (map (λ c. c.target) courses.now)) }
{
    for (axis, course) in Axis::ALL.iter().zip(courses) {
        print_axis(out, *axis, *course)?;
    }
    Ok(())
}

/// The output word, then each axis's position and target.
pub fn print_show(out: &mut Vec<u8>, word: u16, courses: &[Course; AXES]) -> Result<(), AllocError>
    ensures { Adds result out.old out.new (shown word (map (λ c. c.position) courses.now) (map (λ c. c.target) courses.now)) }
{
    print_word(out, word)?;
    print_axes(out, courses)
}
