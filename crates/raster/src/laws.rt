//! Laws, each the contract of a function that does nothing: of grids, in words that do not say how a grid is checked or how its
//! cells are counted, and of streams of images.
ghost use Rattle.std.specs.Prelude.{◌≡◌, ◌≤◌, ◌≤ℤ◌, ◌-ℤ◌, ◌*◌, ◌↔◌, List, Ok, Some, pos, ℕ, ℤ};
ghost use Rattle.std.specs.List.{All, concat};
ghost use Rattle.geometry.specs.Limits.{IsStep};
ghost use Rattle.geometry.specs.Point.{IsMeshPoint};
ghost use Rattle.raster.specs.Grid.{Grid, IsGrid, cell_count, given_grid};
ghost use Rattle.raster.specs.Stream.{IsImage, behind_image, cut};

/// States when given parts are a grid, and how many cells cover a mesh. It does nothing at run time.
/// - `given`: a point of a mesh, two steps and three counts are a grid exactly if counts and centres are within their limits.
/// - `cells`: cells of one length cover the range from one coordinate to another. Their number is the least that does, and at
///   least 1.
pub fn hold_grid_laws()
    ensures given { (g : Grid) → IsMeshPoint g.origin → IsStep g.pitch → IsStep g.layer_height
        → (given_grid g ≡ Ok g) ↔ IsGrid g }
    ensures cells { (low high : ℤ) (step n : ℕ) → low ≤ℤ high → 1 ≤ step
        → (cell_count low high step ≤ n) ↔ ((1 ≤ n) × ((high -ℤ low) ≤ℤ pos (n * step))) }
{}

/// How a stream of images, one behind another, is cut into them.
/// - `cut`: who reads a header and as many bytes as it tells, again and again, finds exactly these images.
/// - `one`: so bytes are the stream of one list of images at most.
pub fn a_stream_of_images_is_cut_in_one_way()
    ensures cut { (images : List (List ℕ)) → All IsImage images → cut behind_image (concat images) ≡ Some images }
    ensures one { (images others : List (List ℕ)) → All IsImage images → All IsImage others → concat images ≡ concat others → images ≡ others }
{}
