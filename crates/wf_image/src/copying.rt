//! Copies the places of contents over those of others.

ghost use Rattle.std.specs.Prelude.{◌≡◌, ◌++◌, ◌-◌, ◌≤◌, length, replicate, take, None, OnOk};
ghost use Rattle.wf_image.specs.Copies.{AreKnown, IsKnown};

use crate::image::Image;
use crate::{MOST_CONTENTS, NoMemory};
use arrayvec::ArrayVec;

/// Leaves `n` of these `places`: the first ones, and empty ones where there are fewer.
pub(crate) fn set_len(places: &mut ArrayVec<Option<(u32, Image)>, MOST_CONTENTS>, n: usize)
    requires { n ≤ MOST_CONTENTS }
    ensures { places.new.items ≡ take n places.old.items ++ replicate (n - length places.old.items) None }
{
    places.truncate(n);
    for _ in places.len()..n {
        places.push(None);
    }
}

/// Makes `places` the same as `from`, place by place. The images of streams that `same` names are left as they are where their
/// stream's place is the same.
pub(crate) fn copy_places(
    places: &mut [Option<(u32, Image)>],
    from: &[Option<(u32, Image)>],
    same: &[u32],
) -> Result<(), NoMemory>
    requires count { length places.old ≡ length from.now }
    requires known { AreKnown same.now places.old from.now }
    ensures { OnOk result (places.new ≡ from.now) }
{
    for i in 0..from.len() {
        copy_place(&mut places[i], &from[i], same)?;
    }
    Ok(())
}

/// Makes a place the same as `from`.
fn copy_place(
    place: &mut Option<(u32, Image)>,
    from: &Option<(u32, Image)>,
    same: &[u32],
) -> Result<(), NoMemory>
    requires known { IsKnown same.now place.old from.now }
    ensures { OnOk result (place.new ≡ from.now) }
{
    let Some((stream, image)) = from else {
        *place = None;
        return Ok(());
    };
    match place {
        Some((number, old)) => {
            if *number != *stream || !same.contains(stream) {
                *number = *stream;
                old.copy_from(image)?;
            }
        }
        None => *place = Some((*stream, image.copy()?)),
    }
    Ok(())
}
