// A sheet of thirteen lines.

// The failure modes of a sheet, by line: any thirteen.
// thirteen types by name: each line is a type of its own, so no array holds them
#[derive(Drop)]
pub struct Sheet<M1, M2, M3, M4, M5, M6, M7, M8, M9, M10, M11, M12, M13> {
    pub line1: M1,
    pub line2: M2,
    pub line3: M3,
    pub line4: M4,
    pub line5: M5,
    pub line6: M6,
    pub line7: M7,
    pub line8: M8,
    pub line9: M9,
    pub line10: M10,
    pub line11: M11,
    pub line12: M12,
    pub line13: M13,
}
