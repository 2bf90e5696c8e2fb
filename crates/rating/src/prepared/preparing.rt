// Reading the certificate, asking the site's numbers, and looking up the strength class.
ghost use Rattle.std.specs.Prelude.{◌≡◌};
ghost use Rattle.rating.specs.Sheets.{SheetFor, SiteFor, PreparedOn};

use crate::channel::lines_of;
use crate::fault::SheetFault;
use crate::prepared::Prepared;
use crate::strength::strength_factor;
use bolts::refusal::Refusal;
use certificate::certificate::Certificate;
use forces::opening::Opening;
use site::numbers::SiteNumbers;
use site::site::Site;

// The site with these numbers, for the certificate's channel.
fn site_for(certificate: &Certificate<'_>, numbers: SiteNumbers) -> Result<Site, Refusal>
    ensures { SiteFor certificate.now.bytes.now numbers result }
{
    let edition = certificate.edition();
    let geometry = certificate.geometry();
    numbers.check(
        edition,
        geometry.embedment_depth,
        geometry.moment_of_inertia,
    )
}

// The sheet of the certificate's channel on a site; none where the strength is not listed.
fn prepared_on(certificate: &Certificate<'_>, site: &Site) -> Option<Prepared>
    ensures { PreparedOn certificate.now.bytes.now site.now result }
{
    let geometry = certificate.geometry();
    let opening = Opening {
        anchors: site.anchors,
        spacing: site.spacing,
        inertia: geometry.moment_of_inertia,
    };
    // a site's strength is at most 75, and u16 has no From<u32>
    let strength_factor = strength_factor(certificate, site.concrete, site.strength as u16)?;
    let sheet = lines_of(certificate, strength_factor, site);
    Some(Prepared { sheet, opening })
}

impl Prepared {
    // The sheet for a certificate's bytes and a site's numbers, or the first question answered no.
    pub fn new(bytes: &[u8], numbers: SiteNumbers) -> Result<Prepared, SheetFault>
        ensures { SheetFor bytes.now numbers result }
    {
        let certificate = Certificate::read(bytes)?;
        let site = site_for(&certificate, numbers)?;
        prepared_on(&certificate, &site).ok_or(SheetFault::Strength)
    }
}
