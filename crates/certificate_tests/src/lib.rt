// The worked certificate, written out byte by byte, and what the writer refuses. The bytes were set down by hand from
// the format, field by field.
#![tactic(auto)]

#[cfg(test)]
mod tests {
    use certificate::certificate::Certificate;
    use certificate::fault::{CertificateFault, Question};
    use certificate::fields::{
        CharacteristicValues, Fields, Geometry, PartialFactors, StrengthFactor,
    };
    use certificate::lookup::{Concrete, lookup};
    use certificate::write::write;
    use std::test::Fail;

    const GEOMETRY: Geometry = Geometry {
        embedment_depth: 790,
        channel_width: 400,
        channel_height: 250,
        cone_factor_cracked: 75,
        cone_factor_uncracked: 105,
        edge_factor_cracked: 60,
        edge_factor_uncracked: 84,
        pryout_factor: 20,
        lip_spacing_tension: 800,
        lip_spacing_shear: 800,
        moment_of_inertia: 59_049,
    };

    const VALUES: CharacteristicValues = CharacteristicValues {
        anchor: 20_000,
        connection: 20_000,
        lip: 20_000,
        bolt: 33_700,
        flexure: 1_099,
        pullout: 26_680,
        bolt_shear: 20_200,
        lip_shear: 20_000,
        anchor_shear: 20_000,
        connection_shear: 20_000,
    };

    const FACTORS: PartialFactors = PartialFactors {
        anchor: 180,
        connection: 180,
        lip: 180,
        bolt: 200,
        flexure: 115,
        bolt_shear: 167,
        lip_shear: 180,
        anchor_shear: 180,
        connection_shear: 180,
        concrete: 150,
    };

    const CRACKED: [StrengthFactor; 1] = [StrengthFactor {
        strength: 30,
        factor: 100,
    }];

    const UNCRACKED: [StrengthFactor; 1] = [StrengthFactor {
        strength: 30,
        factor: 140,
    }];

    const WORKED: [u8; 110] = [
        // edition, sections, and the four pairs
        2, 4, 18, 0, 24, 0, 42, 0, 60, 0, 102, 0, 4, 0, 106, 0, 4, 0, //
        // geometry
        0x16, 0x03, 0x90, 0x01, 0xfa, 0, 75, 0, 105, 0, 60, 0, 84, 0, 20, 0, 0x20, 0x03, 0x20,
        0x03, 0xa9, 0xe6, 0, 0, //
        // characteristic values
        0x20, 0x4e, 0, 0, 0x20, 0x4e, 0, 0, 0x20, 0x4e, 0, 0, 0xa4, 0x83, 0, 0, 0x4b, 0x04, 0, 0, //
        0x38, 0x68, 0, 0, 0xe8, 0x4e, 0, 0, 0x20, 0x4e, 0, 0, 0x20, 0x4e, 0, 0, 0x20, 0x4e, 0, 0, //
        // partial factors
        180, 0, 180, 0, 180, 0, 200, 0, 115, 0, 167, 0, 180, 0, 180, 0, 180, 0, 150, 0, //
        // lists
        30, 0, 100, 0, 30, 0, 140, 0,
    ];

    fn worked() -> Fields<'static> {
        Fields {
            edition: 2,
            geometry: GEOMETRY,
            values: VALUES,
            factors: FACTORS,
            cracked: &CRACKED,
            uncracked: &UNCRACKED,
        }
    }

    fn refused(question: Question, byte: usize) -> Result<usize, CertificateFault> {
        Err(CertificateFault { question, byte })
    }

    #[test]
    fn writes_the_worked_certificate(rt: HostRuntime) -> Result<(), Fail> {
        let mut buffer = [0xee; 112];
        assert_eq!(rt; write(&worked(), &mut buffer)?, 110);
        let (written, rest) = buffer.split_at(110);
        assert_eq!(rt; written, WORKED.as_slice());
        assert_eq!(rt; rest, [0xee, 0xee].as_slice());
        Ok(())
    }

    #[test]
    fn reads_the_worked_certificate(rt: HostRuntime) -> Result<(), Fail> {
        let found = Certificate::read(&WORKED)?;
        assert_eq!(rt; found.geometry().embedment_depth, 790);
        assert_eq!(rt; found.geometry().moment_of_inertia, 59_049);
        assert_eq!(rt; found.values().flexure, 1_099);
        assert_eq!(rt; found.factors().concrete, 150);
        assert_eq!(rt; found.strengths(Concrete::Uncracked).place, 106);
        Ok(())
    }

    #[test]
    fn refuses_what_it_may_not_write(rt: HostRuntime) {
        let mut short = [7; 109];
        assert_eq!(rt; write(&worked(), &mut short), refused(Question::Buffer, 0));
        let mut buffer = [7; 256];
        let empty = Fields {
            cracked: &[],
            ..worked()
        };
        assert_eq!(rt; write(&empty, &mut buffer), refused(Question::Layout, 10));
        let third = Fields {
            edition: 3,
            ..worked()
        };
        assert_eq!(rt; write(&third, &mut buffer), refused(Question::Header, 0));
        let long = [CRACKED[0]; 999];
        let longest = Fields {
            uncracked: &long,
            ..worked()
        };
        assert_eq!(rt; write(&longest, &mut buffer), refused(Question::Header, 0));
        assert_eq!(rt; short, [7; 109]);
        assert_eq!(rt; buffer, [7; 256]);
    }

    #[test]
    fn looks_up_a_class(rt: HostRuntime) -> Result<(), Fail> {
        let list = [20, 0, 80, 0, 30, 0, 100, 0, 40, 0, 120, 0];
        let other = [25, 0, 90, 0];
        let found = lookup(&list, &other, Concrete::Cracked, 30).ok_or("30 is in the list")?;
        assert_eq!(rt; found.len(), 8);
        assert!(rt; lookup(&list, &other, Concrete::Cracked, 25).is_none());
        assert!(rt; lookup(&list, &other, Concrete::Uncracked, 25).is_some());
        Ok(())
    }
}
