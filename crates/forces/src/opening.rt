// The numbers that a load case is opened with: how many anchors, their spacing in tenths of a millimetre, and the
// channel's moment of inertia in mm⁴.
#[derive(Clone, Copy)]
pub struct Opening {
    pub anchors: u32,
    pub spacing: u32,
    pub inertia: u32,
}
