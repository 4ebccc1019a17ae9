//! Small meshes by tables, and the limits as the documents publish them: what the tests of several crates share.
#![tactic(auto)]

mod meshes;
pub mod published;
mod texts;

pub use meshes::{
    BEAM, BOX, COLUMN, CORNERS, CUBE, CUBE_AND_FLAT, CUBE_AND_PAIR, CUBE_OF_THREE, HOLLOW_CUBE,
    INWARD, INWARD_CUBE, LONG_BEAM, NINE_IN_A_ROW, OCTAHEDRON, ONE_INWARD, OPEN_BOX, Part, SHEET,
    TOUCHING, TWO_CUBES, WIDE_ROWS, facets_of, push_facets,
};
pub use texts::{text_of, text_of_facets};
