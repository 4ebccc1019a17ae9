//! Sessions: a closed mesh in its grid, with a rule, asked layer by layer.
ghost use Rattle.std.specs.Prelude.{◌≡◌, ◌<◌, ◌≤◌, ◌+◌, ◌*◌, All, Err, IfErr, IfOk, OnOk, length, vec_len, ℕ};
ghost use Rattle.build_book.specs.Job.{stripe_count};
ghost use Rattle.build_book.specs.Layer.{layer_segments};
ghost use Rattle.build_book.specs.declared.limits.TheConstants.{MOST_STRIPES, STRIPE_LAYERS};
ghost use Rattle.plane_segments.specs.Segment.{HasOrderedNodes};
ghost use Rattle.contour.specs.Loops.{AreLoops, loops};
ghost use Rattle.contour.specs.Outlines.{outlines};
ghost use Rattle.geometry.specs.declared.limits.TheConstants.{FACET_LIMIT, LAYER_LIMIT};
ghost use Rattle.layer_png.specs.Depth.{bits};
ghost use Rattle.layer_png.specs.Layer.{grey};
ghost use Rattle.layer_png.specs.Png.{IsPng};
ghost use Rattle.raster.specs.Filler.{area_of};
ghost use Rattle.raster.specs.Grid.{plane};
ghost use Rattle.raster.specs.Image.{image_limit};
ghost use Rattle.layer_session.specs.Answers.{IsLayerFault, IsRangeFault, IsStripeFault, areas_of, image_of, is_white_pixel, outside, png_of_layer, probed, stripe_images};
ghost use Rattle.layer_session.specs.Session.{Input, IsOpenFault, IsReadAs, IsSessionOf, Session as SessionModel, of_arrays, of_file};
ghost use Rattle.layer_session.specs.Setup.{HasSteps};
ghost use Rattle.layer_session.specs.declared.session_fault.SessionFault.TheVariants.{Memory, Step};

use crate::file::read_file;
use crate::layers::{
    layer_area, layer_areas, layer_as_png, layer_image, layer_loops, layer_outlines, stripe_images,
};
use crate::session_fault::SessionFault;
use crate::setup::Setup;
use build_book::Job;
use contour::{Loops, Outlines};
use geometry::{Facet, Point, extent};
use layer_png::{Depth, Mirrors};
use mesh_arrays::read_arrays;
use mesh_weld::probe;
use raster::{Grid, Rule, image_len};
use std::alloc::Allocator;
use std::marker::Model;

/// A closed mesh in its grid, with a rule. No call changes it, so its layers may be asked in any order.
#[derive(Drop)]
pub struct Session<A: Allocator> {
    alloc: A,
    job: Job<A>,
    facet_count: usize,
    bounds: Option<(Point, Point)>,
    times: (u64, u64),
}

impl<A: Allocator> Model for Session<A> {
    ghost use Rattle.layer_session.specs.Session.{Session};

    ghost Value = { Session };

    ghost view = { λ s. record { job = s.job; facet_count = s.facet_count; bounds = s.bounds; times = s.times } };
}

impl<A: Allocator + Copy + Send + Sync> Session<A> {
    /// Opens the bytes of a file, binary STL or ASCII STL: reads it, puts the facets on the screen if there is one, drops those
    /// with two equal corners, welds the others and lays the grid. [`read_file`](crate::read_file) says which of the two a file
    /// is.
    ///
    /// # Errors
    /// In this order:
    /// - `Step` if pitch or layer height is out of range,
    /// - `Binary` if the file is read as a binary STL and is no facets,
    /// - `Stl` if it is read as a text and is no facets,
    /// - `Screen` if a coordinate that is multiplied for a screen is out of range,
    /// - `Weld` if the edges of all its facets do not balance,
    /// - `Grid` if there is no grid, on a screen `Screen`.
    ///
    /// `Memory` comes only if an allocation failed, and never in place of `Step`. `Outside` does not come.
    pub fn open(alloc: A, bytes: &[u8], setup: &Setup) -> Result<Session<A>, SessionFault>
        ensures found { IfOk result (IsSessionOf setup.now (of_file bytes.now)) }
        ensures fault { IfErr result (IsOpenFault setup.now (of_file bytes.now)) }
        ensures step { (HasSteps setup.now → ⊥) → result ≡ Err Step }
        ensures only { (session : SessionModel) → IsSessionOf setup.now (of_file bytes.now) session
            → IfErr result (λ fault. fault ≡ Memory) }
    {
        setup.check()?;
        let facets = read_file(alloc, bytes, setup.unit)?;
        Session::of_facets(alloc, facets, setup)
    }

    /// Opens a mesh from arrays: takes the facets of the triangles, puts them on the screen if there is one, drops those with two
    /// equal corners, welds the others and lays the grid.
    ///
    /// Points are three coordinates each, in whole micrometres. Triangles are the indices of their corners among the points,
    /// counterclockwise as seen from outside. The unit of `setup` is not used. If a file reads as these facets,
    /// [`Session::open`] has the same answer ([`same_answer`](crate::same_answer)).
    ///
    /// # Errors
    /// In this order:
    /// - `Step` if pitch or layer height is out of range,
    /// - `Arrays` if the arrays are no facets,
    /// - `Screen` if a coordinate that is multiplied for a screen is out of range,
    /// - `Weld` if the edges of all facets do not balance,
    /// - `Grid` if there is no grid, on a screen `Screen`.
    ///
    /// `Memory` comes only if an allocation failed, and never in place of `Step`. `Stl`, `Binary` and `Outside` do not come.
    pub fn open_mesh(
        alloc: A,
        points: &[[i32; 3]],
        triangles: &[[u32; 3]],
        setup: &Setup,
    ) -> Result<Session<A>, SessionFault>
        ensures found { IfOk result (IsSessionOf setup.now (of_arrays points.now triangles.now)) }
        ensures fault { IfErr result (IsOpenFault setup.now (of_arrays points.now triangles.now)) }
        ensures step { (HasSteps setup.now → ⊥) → result ≡ Err Step }
        ensures only { (session : SessionModel) → IsSessionOf setup.now (of_arrays points.now triangles.now) session
            → IfErr result (λ fault. fault ≡ Memory) }
    {
        setup.check()?;
        let facets = read_arrays(alloc, points, triangles)?;
        Session::of_facets(alloc, facets, setup)
    }

    /// The session of the facets that an input is read as.
    pub(crate) fn of_facets(
        alloc: A,
        facets: Vec<Facet, A>,
        setup: &Setup,
    ) -> Result<Session<A>, SessionFault>
        requires range { HasSteps setup.now }
        requires few { vec_len facets ≤ FACET_LIMIT }
        ensures found { (input : Input) → IsReadAs setup.now input facets.items → IfOk result (IsSessionOf setup.now input) }
        ensures fault { (input : Input) → IsReadAs setup.now input facets.items → IfErr result (IsOpenFault setup.now input) }
        ensures only { (input : Input) (session : SessionModel) → IsReadAs setup.now input facets.items
            → IsSessionOf setup.now input session → IfErr result (λ fault. fault ≡ Memory) }
    {
        let facet_count = facets.len();
        let bounds = extent(facets.as_slice());
        let solid = setup.place.solid(alloc, facets)?;
        let grid = setup.place.grid(&solid, setup.layer)?;
        Ok(Session {
            alloc,
            job: Job::new(solid, grid, setup.rule),
            facet_count,
            bounds,
            times: setup.place.times(),
        })
    }

    /// The grid.
    pub fn grid(&self) -> &Grid
        ensures { result.now ≡ self.now.job.grid }
    {
        self.job.grid()
    }

    /// The rule.
    pub fn rule(&self) -> Rule
        ensures { result ≡ self.now.job.rule }
    {
        self.job.rule()
    }

    /// The number of layers, 1 to `LAYER_LIMIT`.
    pub fn layers(&self) -> u32
        ensures value { result ≡ self.now.job.grid.layers }
        ensures some { 1 ≤ result }
        ensures few { result ≤ LAYER_LIMIT }
    {
        self.job.grid().layers()
    }

    /// The number of stripes, as of [`Job::stripes`]. Stripe s consists of the `STRIPE_LAYERS` layers from `STRIPE_LAYERS * s`
    /// on, as far as the grid has them.
    pub fn stripes(&self) -> u64
        ensures value { result ≡ stripe_count self.now.job.grid }
        ensures few { result ≤ MOST_STRIPES }
    {
        self.job.stripes()
    }

    /// The length in bytes of the image of a layer, which is the same for all of them.
    pub fn image_len(&self) -> u64
        ensures value { (k : ℕ) → length (image_of self.now.job k) ≡ result }
        ensures small { result ≤ image_limit }
    {
        image_len(self.job.grid())
    }

    /// The length in bytes of the images of stripe s, which the grid has.
    pub fn stripe_len(&self, s: u64) -> u64
        requires { s < stripe_count self.now.job.grid }
        ensures value { result ≡ length (stripe_images self.now.job s) }
        ensures small { result ≤ STRIPE_LAYERS * image_limit }
    {
        let (first, end) = self.job.layer_range(s);
        u64::from(end - first) * self.image_len()
    }

    /// The number of facets that were read, those with two equal corners among them.
    pub fn facet_count(&self) -> usize
        ensures { result ≡ self.now.facet_count }
    {
        self.facet_count
    }

    /// The box of all facets that were read: their least and greatest x, y and z, in micrometres. `None` if there are no
    /// facets.
    pub fn bounds(&self) -> Option<(Point, Point)>
        ensures { result ≡ self.now.bounds }
    {
        self.bounds
    }

    /// By what x and y of the facets that were read are multiplied: those of the screen, or 1 and 1 if the mesh is on none.
    pub fn times(&self) -> (u64, u64)
        ensures { result ≡ self.now.times }
    {
        self.times
    }

    /// The image of layer k in raw PBM ("P4", pbm(5)), as the program writes it. A pixel is black if its voxel is filled, and
    /// the row of the greatest y stands at the top.
    ///
    /// # Errors
    /// `Outside` exactly if there is no such layer; `Memory` only if an allocation failed.
    pub fn image(&self, k: u32) -> Result<Vec<u8, A>, SessionFault>
        ensures image { IfOk result (λ image. image.items ≡ image_of self.now.job k) }
        ensures within { OnOk result (k < self.now.job.grid.layers) }
        ensures fault { IfErr result (IsLayerFault self.now.job.grid k) }
    {
        self.check_layer(k)?;
        Ok(layer_image(self.alloc, &self.job, k)?)
    }

    /// The image of layer k as PNG (ISO 15948; RFC 2083), in greyscale of this depth, with these mirrors. A pixel is white if
    /// its voxel is filled, else black. Without mirrors the row of the greatest y is at the top.
    ///
    /// `png`: exactly its bytes, whose number differs from layer to layer. `pixels`: what a reader finds in them.
    ///
    /// # Errors
    /// `Outside` exactly if there is no such layer; `Memory` only if an allocation failed.
    pub fn png(&self, k: u32, depth: Depth, mirrors: Mirrors) -> Result<Vec<u8, A>, SessionFault>
        ensures png { IfOk result (λ png. png.items ≡ png_of_layer self.now.job k depth mirrors) }
        ensures pixels { IfOk result (λ png. IsPng png.items self.now.job.grid.columns self.now.job.grid.rows (bits depth)
            (λ x y. grey (bits depth) (is_white_pixel self.now.job k mirrors x y))) }
        ensures within { OnOk result (k < self.now.job.grid.layers) }
        ensures fault { IfErr result (IsLayerFault self.now.job.grid k) }
    {
        self.check_layer(k)?;
        Ok(layer_as_png(self.alloc, &self.job, k, depth, mirrors)?)
    }

    /// The images of the layers of stripe s, from the lowest up, one after the other, as [`Session::image`] gives them.
    /// One sweep cuts all of these layers, while each call of [`Session::image`] begins anew.
    ///
    /// # Errors
    /// `Outside` exactly if there is no such stripe; `Memory` only if an allocation failed.
    pub fn stripe(&self, s: u64) -> Result<Vec<u8, A>, SessionFault>
        ensures images { IfOk result (λ images. images.items ≡ stripe_images self.now.job s) }
        ensures within { OnOk result (s < stripe_count self.now.job.grid) }
        ensures fault { IfErr result (IsStripeFault self.now.job.grid s) }
    {
        if s >= self.stripes() {
            return Err(self.outside());
        }
        Ok(stripe_images(self.alloc, &self.job, s)?)
    }

    /// The number of filled pixels of layer k.
    ///
    /// # Errors
    /// `Outside` exactly if there is no such layer; `Memory` only if an allocation failed.
    pub fn area(&self, k: u32) -> Result<u64, SessionFault>
        ensures area { IfOk result (λ area. area ≡ area_of self.now.job.grid self.now.job.rule self.now.job.solid.facets k) }
        ensures within { OnOk result (k < self.now.job.grid.layers) }
        ensures fault { IfErr result (IsLayerFault self.now.job.grid k) }
    {
        self.check_layer(k)?;
        Ok(layer_area(self.alloc, &self.job, k)?)
    }

    /// The numbers of filled pixels of `count` layers, from layer `first` on, each as [`Session::area`] gives it. One sweep cuts
    /// all of these layers. No layers have no numbers: `count` may be 0.
    ///
    /// # Errors
    /// `Outside` exactly if the grid has not all of these layers; `Memory` only if an allocation failed.
    pub fn areas(&self, first: u32, count: u32) -> Result<Vec<u64, A>, SessionFault>
        ensures areas { IfOk result (λ areas. areas.items ≡ areas_of self.now.job self.now.job.rule first count) }
        ensures within { OnOk result (first + count ≤ self.now.job.grid.layers) }
        ensures fault { IfErr result (IsRangeFault self.now.job.grid first count) }
    {
        self.areas_by(self.rule(), first, count)
    }

    /// The numbers of filled pixels as [`Session::areas`] gives them, but by any rule.
    ///
    /// # Errors
    /// `Outside` exactly if the grid has not all of these layers; `Memory` only if an allocation failed.
    pub fn areas_by(&self, rule: Rule, first: u32, count: u32) -> Result<Vec<u64, A>, SessionFault>
        ensures areas { IfOk result (λ areas. areas.items ≡ areas_of self.now.job rule first count) }
        ensures within { OnOk result (first + count ≤ self.now.job.grid.layers) }
        ensures fault { IfErr result (IsRangeFault self.now.job.grid first count) }
    {
        if u64::from(first) + u64::from(count) > u64::from(self.layers()) {
            return Err(self.outside());
        }
        if count == 0 {
            return Ok(Vec::new(self.alloc));
        }
        Ok(layer_areas(self.alloc, &self.job, rule, first, first + count)?)
    }

    /// The loops of layer k: the closed cycles of the segments in which its plane cuts the mesh, each segment in exactly
    /// one. Of each node `low` is below `high`.
    ///
    /// # Errors
    /// `Outside` exactly if there is no such layer; `Memory` only if an allocation failed.
    pub fn loops(&self, k: u32) -> Result<Loops<A>, SessionFault>
        ensures loops { IfOk result (λ found. found ≡ loops (layer_segments self.now.job k)) }
        ensures closed { IfOk result (AreLoops (layer_segments self.now.job k)) }
        ensures ordered { IfOk result (All (All HasOrderedNodes)) }
        ensures within { OnOk result (k < self.now.job.grid.layers) }
        ensures fault { IfErr result (IsLayerFault self.now.job.grid k) }
    {
        self.check_layer(k)?;
        Ok(layer_loops(self.alloc, &self.job, k)?)
    }

    /// The loops of layer k as points, one for each of their segments. The point is the start of the segment, x and y rounded
    /// to the nearest half-micrometre, halves upward. The inside of a mesh whose facets face outward lies on the left of each
    /// segment, as of [`Outlines`].
    ///
    /// # Errors
    /// `Outside` exactly if there is no such layer; `Memory` only if an allocation failed.
    pub fn outlines(&self, k: u32) -> Result<Outlines<A>, SessionFault>
        ensures outlines { IfOk result (λ found. found ≡ outlines self.now.job.solid.facets (plane self.now.job.grid k)) }
        ensures within { OnOk result (k < self.now.job.grid.layers) }
        ensures fault { IfErr result (IsLayerFault self.now.job.grid k) }
    {
        self.check_layer(k)?;
        Ok(layer_outlines(self.alloc, &self.job, k)?)
    }

    /// The signed crossings of the mesh by the rays along x and along y from the centre of a voxel. The voxel is in column i,
    /// row j and layer k.
    ///
    /// # Errors
    /// `Outside` exactly if the grid has no such voxel.
    pub fn probe(&self, i: u32, j: u32, k: u32) -> Result<(i32, i32), SessionFault>
        ensures { result ≡ probed self.now.job i j k }
    {
        let grid = self.job.grid();
        if i < grid.columns() && j < grid.rows() && k < grid.layers() {
            Ok(probe(self.job.solid(), &grid.centre(i, j, k)))
        } else {
            Err(self.outside())
        }
    }

    /// Refuses a layer k that the grid does not have.
    fn check_layer(&self, k: u32) -> Result<(), SessionFault>
        ensures ok { OnOk result (k < self.now.job.grid.layers) }
        ensures err { IfErr result (λ fault. (fault ≡ outside self.now.job.grid) × (self.now.job.grid.layers ≤ k)) }
    {
        if k < self.layers() {
            Ok(())
        } else {
            Err(self.outside())
        }
    }

    /// The fault of what the grid does not have.
    fn outside(&self) -> SessionFault
        ensures { result ≡ outside self.now.job.grid }
    {
        let grid = self.job.grid();
        SessionFault::Outside {
            columns: grid.columns(),
            rows: grid.rows(),
            layers: grid.layers(),
        }
    }
}
