//! Laws of how parts stand on a screen, the contract of a function that does nothing.
ghost use Rattle.part_on_screen.specs.Stands.{PartsAreOnScreen, PartsHaveOneOutcome, PixelsHaveTrueCentres, PointsStayApart, RaysAlongYStretch, RaysFromEqualPoints, RaysFromWholePoints, RaysStretch};

/// States how parts stand on a screen. It does nothing at run time.
/// - `on_screen`: a part lies between the sides of its grid.
/// - `one`: facets on a screen have a grid or a fault, and just one.
/// - `apart`: different points of a part are different on the screen. So a closed mesh stays closed, and an open one open.
/// - `rays`, `rays_along_y`: a ray from a stretched point crosses the stretched part as the ray from the point crosses the part,
///   once that is turned. Points are in half-micrometres, as centres are.
/// - `whole`, `equal`: a ray from a point that is a fraction is that of a whole point, if it is one, and the same for equal fractions.
/// - `pixels`: the ray of a pixel is that of the turned part from the pixel's true centre, which is a fraction. So by each rule
///   a pixel is filled exactly if its true centre is inside.
pub fn hold_screen_laws()
    ensures on_screen { PartsAreOnScreen }
    ensures one { PartsHaveOneOutcome }
    ensures apart { PointsStayApart }
    ensures rays { RaysStretch }
    ensures rays_along_y { RaysAlongYStretch }
    ensures whole { RaysFromWholePoints }
    ensures equal { RaysFromEqualPoints }
    ensures pixels { PixelsHaveTrueCentres }
{}
