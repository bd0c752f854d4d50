//! FLOATs and DOUBLEs as texts with an exponent, or above 10^7, or that are no numbers: what
//! `cvtDoubleToString` and `cvtFloatToString` wrote, called in `libCom` of EPICS Base 7.0.3.1.
use crate::display_conversions::has_text;
use ca_dbr::Value;
use std::test::Fail;

// More than 8 places, of which 17 at most are written.
#[test]
fn doubles_with_exponents(rt: HostRuntime) -> Result<(), Fail> {
    let alloc = rt.alloc();
    for (bits, precision, bytes) in [
        (0x3fd0_0000_0000_0000, 9, b" 2.500000000e-01".as_slice()),
        (0x3fd0_0000_0000_0000, 17, b" 2.50000000000000000e-01"),
        (0x3fd0_0000_0000_0000, -1, b" 2.50000000000000000e-01"),
        (0x0000_0000_0000_0000, 9, b" 0.000000000e+00"),
        (0x8000_0000_0000_0000, 12, b"-0.000000000000e+00"),
        (0x4163_12d0_0000_0000, 9, b" 1.000000000e+07"),
        (0x4341_c379_37e0_8001, 9, b" 1.000000000e+16"),
        (0x4341_c379_37e0_8001, 17, b" 1.00000000000000020e+16"),
        (0x44b5_2d02_c7e1_4af6, 15, b" 9.999999999999999e+22"),
        (0x44b5_2d02_c7e1_4af6, 16, b" 9.9999999999999992e+22"),
        (0xc4b5_2d02_c7e1_4af6, 17, b"-9.99999999999999916e+22"),
        (0x7fef_ffff_ffff_ffff, 17, b"1.79769313486231571e+308"),
        (0x0000_0000_0000_0001, 9, b"4.940656458e-324"),
        (0x0000_0000_0000_0001, 17, b"4.94065645841246544e-324"),
        (0x0010_0000_0000_0000, 17, b"2.22507385850720138e-308"),
        (0x000f_ffff_ffff_ffff, 12, b"2.225073858507e-308"),
        (0xab2b_ff2e_e48e_0530, 12, b"-1.000000000000e-100"),
        (0x3fb9_9999_9999_999a, 17, b" 1.00000000000000006e-01"),
        (0x3fd5_5555_5555_5555, 17, b" 3.33333333333333315e-01"),
        (0x4023_0000_0000_0000, 12, b" 9.500000000000e+00"),
        (0x4023_ffff_fffb_b47d, 9, b" 9.999999999e+00"),
        (0x4023_ffff_fffb_9e80, 9, b" 9.999999999e+00"),
        (0x41cd_cd64_fff9_999a, 9, b" 1.000000000e+09"),
        (0x3ff0_0000_0022_5c18, 9, b" 1.000000001e+00"),
        (0x3e19_c511_dc3a_41df, 9, b" 1.500000000e-09"),
        (0x3ff0_0400_0000_0000, 9, b" 1.000976562e+00"),
        (0x3ff0_0c00_0000_0000, 9, b" 1.002929688e+00"),
        (0x3e70_0000_0000_0000, 9, b" 5.960464478e-08"),
        (0x3ff0_0080_0000_0000, 12, b" 1.000122070312e+00"),
        (0x3ff0_0180_0000_0000, 12, b" 1.000366210938e+00"),
    ] {
        let value = Value::Doubles(vec![in alloc; bits]?);
        assert!(rt; has_text(alloc, &value, precision, bytes)?);
    }
    Ok(())
}

// At most 8 places: above 10^7 there are 3 at most, and above 10^16 an exponent.
#[test]
fn doubles_from_far(rt: HostRuntime) -> Result<(), Fail> {
    let alloc = rt.alloc();
    for (bits, precision, bytes) in [
        (0x4163_12d0_0333_3333, 0, b"10000000".as_slice()),
        (0x4163_12d0_0333_3333, 1, b"10000000.1"),
        (0x4163_12d0_0333_3333, 3, b"10000000.100"),
        (0x4163_12d0_0333_3333, 8, b"10000000.100"),
        (0xc163_12d0_1000_0000, 0, b"-10000000"),
        (0xc163_12d0_1000_0000, 1, b"-10000000.5"),
        (0x4163_12d0_3000_0000, 0, b"10000002"),
        (0x4167_8c29_c200_0000, 3, b"12345678.062"),
        (0x4167_8c29_c200_0000, 8, b"12345678.062"),
        (0x4167_8c29_c600_0000, 3, b"12345678.188"),
        (0x4167_8c29_dffc_b924, 3, b"12345679.000"),
        (0x4197_d783_ffff_7cee, 3, b"100000000.000"),
        (0x4341_c379_37e0_8000, 0, b"10000000000000000"),
        (0x4341_c379_37e0_8000, 3, b"10000000000000000.000"),
        (0x4341_c379_37e0_8000, 8, b"10000000000000000.000"),
        (0xc341_c379_37e0_8000, 2, b"-10000000000000000.00"),
        (0x4341_c379_37e0_8001, 0, b"  1e+16"),
        (0x4341_c379_37e0_8001, 1, b" 1.0e+16"),
        (0x4341_c379_37e0_8001, 8, b" 1.00000000e+16"),
        (0x4375_181f_f25a_9800, 0, b"  1e+17"),
        (0x4374_df48_080e_3000, 0, b"  9e+16"),
        (0x4372_dfb0_cb5e_8800, 0, b"  8e+16"),
        (0x438b_c16d_674e_c800, 0, b"  2e+17"),
        (0x54b2_49ad_2546_37d7, 3, b"1.000e+100"),
        (0x7fef_ffff_ffff_ffff, 0, b" 2e+308"),
        (0x42dc_1221_8377_de6b, 2, b"123456789012345.67"),
        (0x4330_0000_0000_0002, 0, b"4503599627370498"),
        (0x4330_0000_0000_0002, 1, b"4503599627370498.0"),
        (0x7e37_e43c_8800_759c, 5, b"1.00000e+300"),
    ] {
        let value = Value::Doubles(vec![in alloc; bits]?);
        assert!(rt; has_text(alloc, &value, precision, bytes)?);
    }
    Ok(())
}

// A FLOAT has an exponent from 10^8 on, and 12 places at most with one.
#[test]
fn floats_as_printed(rt: HostRuntime) -> Result<(), Fail> {
    let alloc = rt.alloc();
    for (bits, precision, bytes) in [
        (0x3e80_0000, 9, b"2.500000000e-01".as_slice()),
        (0x3e80_0000, 12, b"2.500000000000e-01"),
        (0x3e80_0000, 13, b"2.500000000000e-01"),
        (0x3e80_0000, -1, b"2.500000000000e-01"),
        (0x0000_0000, 9, b"0.000000000e+00"),
        (0x8000_0000, 9, b"-0.000000000e+00"),
        (0x4b18_9680, 9, b"1.000000000e+07"),
        (0x4b18_9681, 0, b"10000001"),
        (0x4b18_9681, 4, b"10000001.000"),
        (0x4cbe_bc1f, 0, b"99999992"),
        (0x4cbe_bc1f, 3, b"99999992.000"),
        (0x4cbe_bc1f, 8, b"99999992.000"),
        (0x4cbe_bc1f, 9, b"9.999999200e+07"),
        (0xccbe_bc1f, 2, b"-99999992.00"),
        (0x4cbe_bc20, 0, b" 1e+08"),
        (0x4cbe_bc20, 3, b"1.000e+08"),
        (0x4cbe_bc20, 8, b"1.00000000e+08"),
        (0xccbe_bc20, 1, b"-1.0e+08"),
        (0x7f7f_ffff, 0, b" 3e+38"),
        (0x7f7f_ffff, 12, b"3.402823466385e+38"),
        (0x0000_0001, 9, b"1.401298464e-45"),
        (0x0000_0001, 12, b"1.401298464325e-45"),
        (0x0080_0000, 12, b"1.175494350822e-38"),
        (0x3dcc_cccd, 9, b"1.000000015e-01"),
        (0x3dcc_cccd, 12, b"1.000000014901e-01"),
        (0x51ba_43b7, 0, b" 1e+11"),
        (0x51ba_43b7, 3, b"1.000e+11"),
        (0x4b80_0000, 2, b"16777216.00"),
        (0x4ceb_79a3, 8, b"1.23456792e+08"),
        (0x4ceb_79a3, 5, b"1.23457e+08"),
    ] {
        let value = Value::Floats(vec![in alloc; bits]?);
        assert!(rt; has_text(alloc, &value, precision, bytes)?);
    }
    Ok(())
}

// A DOUBLE that is infinite, or no number, has its sign.
#[test]
fn doubles_that_are_no_numbers(rt: HostRuntime) -> Result<(), Fail> {
    let alloc = rt.alloc();
    for (bits, precision, bytes) in [
        (
            0x7ff0_0000_0000_0000,
            17,
            b"                     inf".as_slice(),
        ),
        (0xfff0_0000_0000_0000, 9, b"            -inf"),
        (0x7ff8_0000_0000_0000, 9, b"             nan"),
        (0xfff8_0000_0000_0000, 9, b"            -nan"),
        (0x7ff0_0000_0000_0001, 9, b"             nan"),
        (0xffff_ffff_ffff_ffff, 9, b"            -nan"),
        (0x7ff0_0000_0000_0000, 0, b"    inf"),
        (0x7ff0_0000_0000_0000, 8, b"            inf"),
        (0xfff0_0000_0000_0000, 0, b"   -inf"),
        (0x7ff8_0000_0000_0000, 0, b"nan"),
        (0xfff8_0000_0000_0000, 0, b"-nan"),
        (0x7ff0_0000_0000_0001, 0, b"nan"),
        (0xffff_ffff_ffff_ffff, 0, b"-nan"),
    ] {
        let value = Value::Doubles(vec![in alloc; bits]?);
        assert!(rt; has_text(alloc, &value, precision, bytes)?);
    }
    Ok(())
}

// So has a FLOAT.
#[test]
fn floats_that_are_no_numbers(rt: HostRuntime) -> Result<(), Fail> {
    let alloc = rt.alloc();
    for (bits, precision, bytes) in [
        (0xff80_0000, 0, b"  -inf".as_slice()),
        (0xff80_0000, 12, b"              -inf"),
        (0x7f80_0000, 3, b"      inf"),
        (0x7f80_0000, 9, b"            inf"),
        (0x7fc0_0000, 2, b"nan"),
        (0x7fc0_0000, 9, b"            nan"),
        (0xffc0_0000, 2, b"-nan"),
        (0xffc0_0000, 9, b"           -nan"),
        (0x7f80_0001, 2, b"nan"),
        (0x7f80_0001, 9, b"            nan"),
    ] {
        let value = Value::Floats(vec![in alloc; bits]?);
        assert!(rt; has_text(alloc, &value, precision, bytes)?);
    }
    Ok(())
}

// Any bit patterns, and numbers that end where a half is to be rounded.
#[test]
fn drawn_doubles(rt: HostRuntime) -> Result<(), Fail> {
    let alloc = rt.alloc();
    for (bits, precision, bytes) in [
        (0xc85a_7e89_50b4_2c89, 0, b" -4e+40".as_slice()),
        (0x0310_f54d_14cf_8f66, 9, b"6.638106005e-294"),
        (0xe7ac_d239_dff1_a136, 20, b"-2.56826159081320871e+191"),
        (0x99d8_d6fe_13be_5647, 9, b"-3.653684216e-184"),
        (0x72c1_34b1_8882_19d8, 15, b"5.874111951679416e+244"),
        (0xf43e_0ac3_cdc4_acdb, 16, b"-8.6037139001120016e+251"),
        (0xe431_9069_66cb_1cb0, 12, b"-4.344137957311e+174"),
        (0xd0b9_374e_e115_3e5d, 17, b"-7.47473614116273095e+80"),
        (0x0e5f_5e26_02f8_3721, 12, b"1.881685639810e-239"),
        (0x774d_947f_69b3_f143, 16, b"4.7689785068746100e+266"),
        (0xcd75_49ae_3543_ef49, 8, b"-1.40116783e+65"),
        (0x3106_5bdf_80c0_6dad, 12, b" 1.581834640635e-72"),
        (0xbf09_6287_53b4_72c6, 20, b"-4.84178112520653830e-05"),
        (0x4605_cf07_3f87_b873, 12, b" 2.159829465407e+29"),
        (0xb999_bfd1_409c_1c1f, 12, b"-3.173844625853e-31"),
        (0x53a3_7d58_a16c_7508, 8, b" 8.13078219e+94"),
        (0x47e5_8e81_611a_0327, 12, b" 2.292297455153e+38"),
        (0xf641_bb28_4b84_f06d, 2, b"-4.36e+261"),
        (0xbd56_f3e6_c569_35f2, 20, b"-3.26178053997177760e-13"),
        (0xc20c_cc6c_bfd2_fbdf, 1, b"-15461095418.4"),
        (0x5035_1a5f_e350_4dc5, 3, b" 2.444e+78"),
        (0x1f4c_4358_f593_22a1, 20, b"6.43297278196273336e-158"),
        (0x87ea_7ca7_edc5_bae7, 9, b"-1.566771459e-270"),
        (0x694e_00a0_db6f_6f35, 20, b"1.79417143015532032e+199"),
    ] {
        let value = Value::Doubles(vec![in alloc; bits]?);
        assert!(rt; has_text(alloc, &value, precision, bytes)?);
    }
    Ok(())
}

// Any bit patterns.
#[test]
fn drawn_floats(rt: HostRuntime) -> Result<(), Fail> {
    let alloc = rt.alloc();
    for (bits, precision, bytes) in [
        (0xdc85_1d01, 0, b"-3e+17".as_slice()),
        (0x4a20_8a53, 10, b"2.6302927500e+06"),
        (0x5769_bc1e, 1, b"2.6e+14"),
        (0xb019_9354, 10, b"-5.5870441606e-10"),
        (0xdfe8_4933, 8, b"-3.34759311e+19"),
        (0x149e_5655, 9, b"1.598797493e-26"),
        (0x546a_387c, 3, b"4.024e+12"),
        (0x3c8c_f3da, 12, b"1.720612123609e-02"),
        (0xe5c7_8c38, 9, b"-1.177921887e+23"),
        (0xd655_1f78, 15, b"-5.858278349210e+13"),
        (0x72f1_a043, 8, b"9.57179288e+30"),
        (0x7e60_fda7, 9, b"7.476602733e+37"),
        (0xe591_aba6, 3, b"-8.599e+22"),
        (0x5d56_747d, 9, b"9.658196038e+17"),
        (0xc226_7d53, 12, b"-4.162238693237e+01"),
        (0x5cb5_1e28, 6, b"4.078410e+17"),
    ] {
        let value = Value::Floats(vec![in alloc; bits]?);
        assert!(rt; has_text(alloc, &value, precision, bytes)?);
    }
    Ok(())
}
