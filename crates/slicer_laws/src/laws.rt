//! The laws, one function each. No code runs them: a clause is what is proved.
ghost use Rattle.raster.specs.declared.rule.Rule.TheVariants.{EvenOdd, NonZero};
ghost use Rattle.slicer_laws.specs.Boxes.{BoxRays, BoxRaysAlongY, BoxesAreClosed, BoxesAreFilled};
ghost use Rattle.slicer_laws.specs.InsideOut.{KeepsAreas, KeepsImages, RaysAlongYAreNegated, RaysAreNegated};
ghost use Rattle.slicer_laws.specs.Moves.{AreasMoveAlong, ImagesMoveAlong, RaysAlongYMoveAlong, RaysMoveAlong};
ghost use Rattle.slicer_laws.specs.Orders.{AreasIgnoreOrder, ImagesIgnoreOrder, RaysAlongYIgnoreOrder, RaysIgnoreOrder};
ghost use Rattle.slicer_laws.specs.QuarterTurns.{AreasTurn, RaysAlongXBecomeY, RaysAlongYTurn, RaysStandOnScreens, RaysTurn, TurnedPartsAreClosed, VoxelsTurn};
ghost use Rattle.slicer_laws.specs.Shells.{AreasAdd, PositiveAreasAdd, PositiveVoxelsJoin, RaysAdd, RaysAlongYAdd, VoxelsJoin};
ghost use Rattle.slicer_laws.specs.Slabs.{LowerAreasStay, LowerPartsAreGrids, PlanesStay, SlabsJoin, UpperAreasStay, UpperPartsAreGrids};

/// A mesh that is turned inside out has each ray with the other sign, so the same images and areas by `evenodd` and by
/// `nonzero`.
pub fn turned_inside_out()
    ensures rays { RaysAreNegated }
    ensures rays_along_y { RaysAlongYAreNegated }
    ensures evenodd { KeepsImages EvenOdd }
    ensures evenodd_areas { KeepsAreas EvenOdd }
    ensures nonzero { KeepsImages NonZero }
    ensures nonzero_areas { KeepsAreas NonZero }
{}

/// The same facets in another order have the same rays, images and areas.
pub fn any_order()
    ensures rays { RaysIgnoreOrder }
    ensures rays_along_y { RaysAlongYIgnoreOrder }
    ensures images { ImagesIgnoreOrder }
    ensures areas { AreasIgnoreOrder }
{}

/// The images of a grid are those of its first layers, then those of the layers above them, each part sliced by itself.
pub fn slabs_join()
    ensures images { SlabsJoin }
    ensures planes { PlanesStay }
    ensures lower_areas { LowerAreasStay }
    ensures upper_areas { UpperAreasStay }
    ensures lower { LowerPartsAreGrids }
    ensures upper { UpperPartsAreGrids }
{}

/// A mesh and a grid that are moved together, by whole micrometres, have the same images and areas.
pub fn moved_together()
    ensures rays { RaysMoveAlong }
    ensures rays_along_y { RaysAlongYMoveAlong }
    ensures images { ImagesMoveAlong }
    ensures areas { AreasMoveAlong }
{}

/// A part that is turned by quarters, counterclockwise from above, is closed exactly if it was. A ray along x becomes one along
/// y, with the same crossings if its line meets no edge. If the part is closed and no facet touches a centre, both rays from
/// the turned centre are those from the centre, also on a screen, where the part is stretched too. So after one quarter its
/// voxel in the turned grid is filled exactly if it was. A centre on a facet may differ: a box holds its near faces, and not
/// its far ones.
pub fn turned_by_quarters()
    ensures x_becomes_y { RaysAlongXBecomeY }
    ensures closed { TurnedPartsAreClosed }
    ensures rays { RaysTurn }
    ensures rays_along_y { RaysAlongYTurn }
    ensures on_screen { RaysStandOnScreens }
    ensures voxels { VoxelsTurn }
    ensures areas { AreasTurn }
{}

/// A ray of two meshes together is the sum of their rays. Take a voxel that is not filled by both meshes. Both together fill it
/// exactly if one of them does. If no voxel of a layer is filled by both, the areas add. By `positive` neither mesh may have
/// a negative ray there.
pub fn shells_add()
    ensures rays { RaysAdd }
    ensures rays_along_y { RaysAlongYAdd }
    ensures evenodd { VoxelsJoin EvenOdd }
    ensures evenodd_areas { AreasAdd EvenOdd }
    ensures nonzero { VoxelsJoin NonZero }
    ensures nonzero_areas { AreasAdd NonZero }
    ensures positive { PositiveVoxelsJoin }
    ensures positive_areas { PositiveAreasAdd }
{}

/// A box is a closed mesh, and half-open: it holds its near faces, at the low ends of x, y and z, and not its far faces.
/// A ray counts 1 from each point that the box holds, and 0 from all others. So by each rule a voxel is filled exactly
/// where the box holds its centre.
pub fn box_is_half_open()
    ensures closed { BoxesAreClosed }
    ensures rays { BoxRays }
    ensures rays_along_y { BoxRaysAlongY }
    ensures filled { BoxesAreFilled }
{}
