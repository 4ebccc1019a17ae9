//! What follows from the definition of a lawful layer alone: there is exactly one, and it is what a slicer promises.
ghost use Rattle.std.specs.Prelude.{◌≡◌, ◌<◌, ℕ, List, Some, slice_get};
ghost use Rattle.geometry.specs.Facet.{Facet};
ghost use Rattle.mesh_weld.specs.Balance.{IsBalanced};
ghost use Rattle.raster.specs.Grid.{Grid};
ghost use Rattle.raster.specs.declared.rule.Rule.{Rule};
ghost use Rattle.build_book.specs.Job.{Job};
ghost use Rattle.build_book.specs.Layer.{IsLawful, Layer};
ghost use Rattle.build_book.specs.Book.{Book, IsLawfulBook};
ghost use Rattle.build_book.specs.Build.{IsComplete};
ghost use Rattle.build_book.specs.Promise.{IsPromised, job_of};

/// Two layers that are lawful at the same place of the same job are equal.
pub fn one_layer()
    ensures { (job : Job) (k : ℕ) (a b : Layer) → IsLawful job k a → IsLawful job k b → a ≡ b }
{}

/// For all facets, each grid and each rule:
///
/// - `book`: each layer in a book of their job is as promised. Its loops are closed, and its area is the number of its filled
///   pixels. A pixel is filled exactly if the signed crossings of the facets by the ray from its voxel's centre are odd, or
///   not zero, or above zero, by the rule.
/// - `build`: so is each layer of a complete build, and `whole`: it has one for each number below the grid's count.
/// - `only`: the promise leaves no choice of a layer.
/// - `some_build`: a closed mesh has a complete build, and `one_build`: a job has at most one. So the build is the same for
///   every number of workers.
pub fn headline()
    ensures book { (facets : List Facet) (grid : Grid) (rule : Rule) (book : Book) (k : ℕ) (layer : Layer)
        → IsLawfulBook book → book.job ≡ job_of facets grid rule → slice_get book.places k ≡ Some (Some layer)
        → IsPromised facets grid rule k layer }
    ensures build { (facets : List Facet) (grid : Grid) (rule : Rule) (layers : List Layer) (k : ℕ) (layer : Layer)
        → IsComplete (job_of facets grid rule) layers → slice_get layers k ≡ Some layer
        → IsPromised facets grid rule k layer }
    ensures whole { (facets : List Facet) (grid : Grid) (rule : Rule) (layers : List Layer) (k : ℕ)
        → IsComplete (job_of facets grid rule) layers → k < grid.layers
        → (layer : Layer) × (slice_get layers k ≡ Some layer) }
    ensures only { (facets : List Facet) (grid : Grid) (rule : Rule) (k : ℕ) (a b : Layer)
        → IsPromised facets grid rule k a → IsPromised facets grid rule k b → a ≡ b }
    ensures some_build { (facets : List Facet) (grid : Grid) (rule : Rule) → IsBalanced facets
        → (layers : List Layer) × IsComplete (job_of facets grid rule) layers }
    ensures one_build { (job : Job) (a b : List Layer) → IsComplete job a → IsComplete job b → a ≡ b }
{}
