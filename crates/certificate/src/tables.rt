// The numbers of the first two sections, with their ranges, in file order.
use crate::rules::{FieldRule, Width};

// A rule: the number's width, where it begins, the least and the most; `or 0` where 0 is lawful besides.
macro_rules! rule {
    ($width:ident, $offset:literal, $least:literal, $most:literal) => {
        FieldRule {
            offset: $offset,
            width: Width::$width,
            least: $least,
            most: $most,
            or_zero: false,
        }
    };
    ($width:ident, $offset:literal, $least:literal, $most:literal, or 0) => {
        FieldRule {
            offset: $offset,
            width: Width::$width,
            least: $least,
            most: $most,
            or_zero: true,
        }
    };
}

pub(crate) const GEOMETRY: [FieldRule; 11] = [
    rule!(Two, 0, 400, 2_500), // embedment depth
    rule!(Two, 2, 150, 800), // channel width
    rule!(Two, 4, 100, 600), // channel height
    rule!(Two, 6, 30, 130), // cone factor, cracked
    rule!(Two, 8, 30, 130), // cone factor, uncracked
    rule!(Two, 10, 10, 110), // edge factor, cracked
    rule!(Two, 12, 10, 110), // edge factor, uncracked
    rule!(Two, 14, 10, 20), // pry-out factor
    rule!(Two, 16, 200, 3_000), // lip spacing in tension
    rule!(Two, 18, 200, 3_000), // lip spacing in shear
    rule!(Four, 20, 4_000, 200_000), // moment of inertia
];

pub(crate) const RESISTANCE: [FieldRule; 20] = [
    rule!(Four, 0, 1_000, 500_000), // anchor
    rule!(Four, 4, 1_000, 500_000), // connection
    rule!(Four, 8, 1_000, 500_000), // lip
    rule!(Four, 12, 1_000, 500_000), // bolt
    rule!(Four, 16, 100, 10_000), // flexure
    rule!(Four, 20, 1_000, 500_000), // pull-out
    rule!(Four, 24, 1_000, 500_000), // bolt in shear
    rule!(Four, 28, 1_000, 500_000), // lip in shear
    rule!(Four, 32, 1_000, 500_000, or 0), // anchor in shear
    rule!(Four, 36, 1_000, 500_000, or 0), // connection in shear
    rule!(Two, 40, 100, 300), // partial factor of the anchor
    rule!(Two, 42, 100, 300), // of the connection
    rule!(Two, 44, 100, 300), // of the lip
    rule!(Two, 46, 100, 300), // of the bolt
    rule!(Two, 48, 100, 300), // of flexure
    rule!(Two, 50, 100, 300), // of the bolt in shear
    rule!(Two, 52, 100, 300), // of the lip in shear
    rule!(Two, 54, 100, 300), // of the anchor in shear
    rule!(Two, 56, 100, 300), // of the connection in shear
    rule!(Two, 58, 100, 300), // of concrete
];
