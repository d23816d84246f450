// The exponential: reduction by a table of 2 ^ (j / 64) and a polynomial of degree 6.
ghost use Rattle.std.specs.Prelude.{◌≡◌, ◌<◌, ◌≤◌};
ghost use Rattle.elementary_exp.specs.ExpTable.{entry_pattern};
ghost use Rattle.elementary_exp.specs.Exp.{polynomial_of, remainder_of, scaled_entry, within_of, exp_of};
ghost use Rattle.elementary_exp.specs.Range.{InRange};

// The pattern of 2 ^ (j / 64) with 2048 added to its first twelve digits, sign and exponent. The constants of a match stand in constant memory, an array's would be copied at each call.
#[tactic(auto, unfolding(crate::specs::ExpTable::entry_pattern, crate::specs::ExpTable::two_to_sixty_fourths))]
fn entry_pattern(j: u64) -> u64
    requires { j < 64 }
    ensures { result ≡ entry_pattern j }
{
    match j {
        0 => 0xbff0_0000_0000_0000,
        1 => 0xbff0_2c9a_3e77_8061,
        2 => 0xbff0_59b0_d315_8574,
        3 => 0xbff0_8745_1875_9bc8,
        4 => 0xbff0_b558_6cf9_890f,
        5 => 0xbff0_e3ec_32d3_d1a2,
        6 => 0xbff1_1301_d012_5b51,
        7 => 0xbff1_429a_aea9_2de0,
        8 => 0xbff1_72b8_3c7d_517b,
        9 => 0xbff1_a35b_eb6f_cb75,
        10 => 0xbff1_d487_3168_b9aa,
        11 => 0xbff2_063b_8862_8cd6,
        12 => 0xbff2_387a_6e75_6238,
        13 => 0xbff2_6b45_65e2_7cdd,
        14 => 0xbff2_9e9d_f51f_dee1,
        15 => 0xbff2_d285_a6e4_030b,
        16 => 0xbff3_06fe_0a31_b715,
        17 => 0xbff3_3c08_b264_16ff,
        18 => 0xbff3_71a7_373a_a9cb,
        19 => 0xbff3_a7db_34e5_9ff7,
        20 => 0xbff3_dea6_4c12_3422,
        21 => 0xbff4_160a_21f7_2e2a,
        22 => 0xbff4_4e08_6061_892d,
        23 => 0xbff4_86a2_b5c1_3cd0,
        24 => 0xbff4_bfda_d536_2a27,
        25 => 0xbff4_f9b2_769d_2ca7,
        26 => 0xbff5_342b_569d_4f82,
        27 => 0xbff5_6f47_36b5_27da,
        28 => 0xbff5_ab07_dd48_5429,
        29 => 0xbff5_e76f_15ad_2148,
        30 => 0xbff6_247e_b03a_5585,
        31 => 0xbff6_6238_8255_2225,
        32 => 0xbff6_a09e_667f_3bcd,
        33 => 0xbff6_dfb2_3c65_1a2f,
        34 => 0xbff7_1f75_e8ec_5f74,
        35 => 0xbff7_5feb_5642_67c9,
        36 => 0xbff7_a114_73eb_0187,
        37 => 0xbff7_e2f3_36cf_4e62,
        38 => 0xbff8_2589_994c_ce13,
        39 => 0xbff8_68d9_9b44_92ed,
        40 => 0xbff8_ace5_422a_a0db,
        41 => 0xbff8_f1ae_9915_7736,
        42 => 0xbff9_3737_b0cd_c5e5,
        43 => 0xbff9_7d82_9fde_4e50,
        44 => 0xbff9_c491_82a3_f090,
        45 => 0xbffa_0c66_7b5d_e565,
        46 => 0xbffa_5503_b23e_255d,
        47 => 0xbffa_9e6b_5579_fdbf,
        48 => 0xbffa_e89f_995a_d3ad,
        49 => 0xbffb_33a2_b84f_15fb,
        50 => 0xbffb_7f76_f2fb_5e47,
        51 => 0xbffb_cc1e_904b_c1d2,
        52 => 0xbffc_199b_dd85_529c,
        53 => 0xbffc_67f1_2e57_d14b,
        54 => 0xbffc_b720_dcef_9069,
        55 => 0xbffd_072d_4a07_897c,
        56 => 0xbffd_5818_dcfb_a487,
        57 => 0xbffd_a9e6_03db_3285,
        58 => 0xbffd_fc97_337b_9b5f,
        59 => 0xbffe_502e_e78b_3ff6,
        60 => 0xbffe_a4af_a2a4_90da,
        61 => 0xbffe_fa1b_ee61_5a27,
        62 => 0xbfff_5076_5b6e_4540,
        _ => 0xbfff_a7c1_819e_90d8,
    }
}

// 2 ^ (j / 64) * 2 ^ (n - 2048): n is added to the exponent's field, from which the entry's 2048 and that of n fall off as 4096
fn scaled_entry(j: u64, n: u64) -> f64
    requires j_bound { j < 64 }
    requires lt_n { 1025 < n }
    requires n_bound { n < 3072 }
    ensures { result ≡ scaled_entry j n }
{
    f64::from_bits(entry_pattern(j).wrapping_add(n << 52))
}

// e ^ r - 1 to degree 6
#[tactic(auto, unfolding(crate::specs::Exp::polynomial_of))]
fn polynomial(r: f64) -> f64
    ensures { result ≡ polynomial_of r }
{
    let p = 0.008333333333333333 + r * 0.001388888888888889;
    let p = 0.041666666666666664 + r * p;
    let p = 0.16666666666666666 + r * p;
    let p = 0.5 + r * p;
    let p = 1.0 + r * p;
    r * p
}

#[tactic(auto, unfolding(crate::specs::Exp::remainder_of))]
fn remainder(x: f64, w: f64) -> f64
    ensures { result ≡ remainder_of x w }
{
    let m = w - 4503599627501568.0;
    x - m * 0.010830424695996044 - m * 2.5310172166650877e-13
}

fn within(x: f64) -> f64
    requires { InRange x }
    ensures { result ≡ within_of x }
{
    let w = x * 92.33248261689366 + 131071.25 + 4503599627370496.0;
    let u = w.to_bits() % 0x10_0000_0000_0000;
    let t = scaled_entry(u % 64, u / 64);
    t + t * polynomial(remainder(x, w))
}

// e ^ x: within 2 ^ -48 of it, relatively, for x from -700 to 700 (elementary_distance)
pub fn exp(x: f64) -> f64
    ensures { result ≡ exp_of x }
{
    // The definition's own test.
    if x != x {
        return 0.0 / 0.0;
    }
    if x > 700.0 {
        return 1.0 / 0.0;
    }
    if x < -700.0 {
        return 0.0;
    }
    if (x > -5.551115123125783e-17) & (x < 5.551115123125783e-17) {
        return 1.0;
    }
    within(x)
}
