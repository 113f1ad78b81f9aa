//! The exit status where there had to be pictures.

ghost use Rattle.std.specs.Prelude.{◌≡◌};
ghost use Rattle.avc_shell.specs.Ending.{absent_picture, ended_status, has_to_show, shown_by};
ghost use Rattle.avc_shell.specs.Ending.{status_wanting};

use avc_request::{Form, Task};

/// The exit status after a run of so many pictures that ended with this one: 1 in place of 0 where
/// there had to be pictures and there are none, since the program was to be strict, or pictures
/// were to be compared, or one was to be drawn.
pub fn ended_status(is_strict: bool, task: &Task, pictures: u64, status: u8) -> u8
    ensures { result ≡ ended_status is_strict task.now pictures status }
{
    let strict = status_wanting(is_strict, pictures, status);
    status_wanting(has_to_show(task), shown_by(task, pictures), strict)
}

// Where there had to be pictures, or not.
fn status_wanting(is_wanted: bool, pictures: u64, status: u8) -> u8
    ensures { result ≡ status_wanting is_wanted pictures status }
{
    if is_wanted && pictures == 0 && status == 0 {
        1
    } else {
        status
    }
}

// Whether pictures are compared, or one is drawn.
fn has_to_show(task: &Task) -> bool
    ensures { result ≡ has_to_show task.now }
{
    match task {
        Task::Show(showing) => match showing.form {
            Form::Verify(_) => true,
            Form::I420 | Form::Null | Form::Md5 | Form::Y4m | Form::FrameMd5 | Form::Png => false,
        },
        Task::Compare(_) | Task::Draw(_) => true,
        Task::Decode(_) | Task::Check(_) | Task::Tell(..) | Task::Cut(_) => false,
    }
}

// How many of so many pictures are shown.
fn shown_by(task: &Task, pictures: u64) -> u64
    ensures { result ≡ shown_by task.now pictures }
{
    match task {
        Task::Show(showing) => pictures.saturating_sub(showing.skip).min(showing.limit),
        Task::Draw(number) => pictures.saturating_sub(*number).min(1),
        Task::Decode(_) | Task::Check(_) | Task::Tell(..) | Task::Cut(_) | Task::Compare(_) => {
            pictures
        }
    }
}

/// The number of a picture that was to be drawn, where a run of so many pictures, which ended with
/// this status and without a fault, has none of that number.
pub fn absent_picture(task: &Task, pictures: u64, status: u8) -> Option<u64>
    ensures { result ≡ absent_picture task.now pictures status }
{
    match task {
        Task::Draw(number) if pictures <= *number && status <= 1 => Some(*number),
        _ => None,
    }
}
