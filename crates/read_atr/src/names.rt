// The rules' names, by number: LONG has three.
pub fn name(rule: usize) -> &'static str {
    match rule {
        1 => "TS",
        2 => "TA1",
        3 => "TB1-ABSENT",
        4 => "TB1",
        5 => "TD1",
        6 => "TA2",
        7 => "TB2",
        8 => "TC2",
        9 => "TD2",
        10 => "TA3",
        11 => "TB3-ABSENT",
        12 => "TB3-BWI",
        13 => "TB3-CWI",
        14 => "TB3-N",
        15 => "TC3",
        16 | 20 | 22 => "LONG",
        17 => "CUT",
        18 => "TCK-ABSENT",
        19 => "TCK",
        21 => "EXTRA",
        _ => "-",
    }
}
