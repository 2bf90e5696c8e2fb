// The thirteen lines of a channel on a site.
ghost use Rattle.certificate.specs.Content.{edition_of};
ghost use Rattle.certificate.specs.Ranges.{Between};
ghost use Rattle.std.specs.Prelude.{◌≡◌, true};
ghost use Rattle.steel_modes.specs.Ranges.{bending_well, factor_well, spacing_well, strength_well, value_or_none, value_well};
ghost use Rattle.rating.specs.Lines.{IsSheet};
ghost use Rattle.rating.specs.Modes.{IsAnchorSteel, IsBoltSteel, IsFlexure, IsLip, IsPullOut};
ghost use Rattle.rating.specs.Sheets.{geometry_in, values_in, factors_in};

use crate::concrete_lines::ConcreteBasis;
use crate::edition::ByEdition;
use bolts::bolt::Direction;
use bolts::bolt::Direction::{Shear, Tension};
use certificate::certificate::Certificate;
use concrete_modes::cone::Cone;
use concrete_modes::edge::first::FirstEdge;
use concrete_modes::edge::second::SecondEdge;
use failure::corner::CornerReduction;
use failure::maybe::MaybeReduced;
use failure::root::RootReduction;
use sheet::lines::Sheet;
use site::site::Site;
use steel_modes::anchor::AnchorSteel;
use steel_modes::bolt::BoltSteel;
use steel_modes::design::PartialFactor;
use steel_modes::flexure::Flexure;
use steel_modes::lip::Lip;
use steel_modes::pullout::PullOut;

// The multiple of the cone itself, in tenths.
const WHOLE: u16 = 10;

// The concrete cone, or the pry-out, under its reductions.
pub type ConeLine = MaybeReduced<CornerReduction<RootReduction<Cone>>>;

// The concrete edge under its reductions.
pub type EdgeLine = RootReduction<CornerReduction<ByEdition<FirstEdge, SecondEdge>>>;

// The sheet of a channel: anchor, connection, lip, bolt, flexure, pull-out and cone in tension; bolt, lip, anchor,
// connection, pry-out and edge in shear.
// Thirteen types by name, as `Sheet` has them.
pub type ChannelSheet = Sheet<
    AnchorSteel,
    AnchorSteel,
    Lip,
    BoltSteel,
    Flexure,
    PullOut,
    ConeLine,
    BoltSteel,
    Lip,
    AnchorSteel,
    AnchorSteel,
    ConeLine,
    EdgeLine,
>;

// The lines of a certificate's channel, with the strength factor of the site's concrete.
pub(crate) fn lines_of(
    certificate: &Certificate<'_>,
    strength_factor: u16,
    site: &Site,
) -> ChannelSheet
    requires listed { Between 20 400 strength_factor }
    ensures { let bs = certificate.now.bytes.now in IsSheet (edition_of bs) (geometry_in bs) (values_in bs) (factors_in bs) strength_factor site.now result }
{
    let geometry = certificate.geometry();
    let values = certificate.values();
    let factors = certificate.factors();
    let concrete = ConcreteBasis {
        geometry,
        factor: factor_of(factors.concrete),
        site,
    };
    let tension_spacing = geometry.lip_spacing_tension;
    let shear_spacing = geometry.lip_spacing_shear;
    Sheet {
        line1: anchor(Tension, values.anchor, factor_of(factors.anchor)),
        line2: anchor(Tension, values.connection, factor_of(factors.connection)),
        line3: lip(Tension, values.lip, factor_of(factors.lip), tension_spacing),
        line4: bolt(Tension, values.bolt, factor_of(factors.bolt)),
        line5: flexure(values.flexure, factor_of(factors.flexure)),
        line6: pull_out(values.pullout, strength_factor, concrete.factor),
        line7: concrete.cone_line(Tension, WHOLE),
        line8: bolt(Shear, values.bolt_shear, factor_of(factors.bolt_shear)),
        line9: lip(
            Shear,
            values.lip_shear,
            factor_of(factors.lip_shear),
            shear_spacing,
        ),
        line10: anchor(Shear, values.anchor_shear, factor_of(factors.anchor_shear)),
        line11: anchor(
            Shear,
            values.connection_shear,
            factor_of(factors.connection_shear),
        ),
        line12: concrete.cone_line(Shear, geometry.pryout_factor),
        line13: concrete.edge_line(certificate.edition()),
    }
}

// The partial factor of this many hundredths.
fn factor_of(hundredths: u16) -> PartialFactor
    requires { factor_well hundredths ≡ true }
    ensures { result.hundredths ≡ hundredths }
{
    PartialFactor::new(u32::from(hundredths)).unwrap()
}

// From here on a function for each mode, so that each is proved alone: what it asks of a number its constructor asks.

// The steel of an anchor or of its connection.
fn anchor(direction: Direction, value: u32, factor: PartialFactor) -> AnchorSteel
    requires { value_or_none value ≡ true }
    ensures { IsAnchorSteel direction value factor.hundredths result }
{
    AnchorSteel::new(direction, value, factor).unwrap()
}

// The steel of a bolt.
fn bolt(direction: Direction, value: u32, factor: PartialFactor) -> BoltSteel
    requires { value_well value ≡ true }
    ensures { IsBoltSteel direction value factor.hundredths result }
{
    BoltSteel::new(direction, value, factor).unwrap()
}

// The lips, with their spacing in tenths.
fn lip(direction: Direction, value: u32, factor: PartialFactor, spacing: u16) -> Lip
    requires { (value_well value ≡ true) × (spacing_well spacing ≡ true) }
    ensures { IsLip direction value factor.hundredths spacing result }
{
    Lip::new(direction, value, factor, u32::from(spacing)).unwrap()
}

// The bending, with the value in newton-metres.
fn flexure(value: u32, factor: PartialFactor) -> Flexure
    requires { bending_well value ≡ true }
    ensures { IsFlexure value factor.hundredths result }
{
    Flexure::new(value, factor).unwrap()
}

// The pull-out, with the strength factor in hundredths.
fn pull_out(value: u32, strength: u16, factor: PartialFactor) -> PullOut
    requires { (value_well value ≡ true) × (strength_well strength ≡ true) }
    ensures { IsPullOut value strength factor.hundredths result }
{
    PullOut::new(value, u32::from(strength), factor).unwrap()
}
