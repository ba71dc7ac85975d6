ghost use Rattle.std.specs.Prelude.{◌≡◌, length, Some};

// How many numbers are lent as room for a picture and for flows, where an entry is lent any. By default it is lent none.
#[derive(Clone, Copy, Default)]
pub struct Rooms {
    pub picture: Option<usize>,
    pub flows: Option<usize>,
}

impl Rooms {
    // A picture and flows are lent.
    pub fn both(picture: &[u32], flows: &[u32]) -> Self
        ensures picture { result.picture ≡ Some (length picture.now) }
        ensures flows { result.flows ≡ Some (length flows.now) }
    {
        Rooms {
            picture: Some(picture.len()),
            flows: Some(flows.len()),
        }
    }
}
