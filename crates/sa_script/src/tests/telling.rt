use super::try_rows;
use sa_base::Memory;

/// Lines of calls that seek, compare and test texts. Before them stand descriptors of different rules, and
/// arrays of 2 entries, `one` of 1.
static ROWS: &str =
    "~descr d nan|descr n absent|descr t text \"x\"|array a d str 2|array c n str 2|array w t str 2|array one d str 1|task|~|end|
0,2,1 replace a \"x\" \"y\"
0,2,1 replace a \"x\" \"y\" into a
0,2,1 replace a \"x\" \"y\" 1
0,2,1 replace a (\"x\",\"y\") one (1,-2) into c
ok replace \"x\" \"y\" \"z\"
0,2,1 find a \"x\"
0,2,1 find a \"x\" 0 9
0,2,1 rfind a one (0,1) -1
0,2,1 index a a
0,2,1 rindex a \"x\" -9223372036854775808 9223372036854775807
0,2,1 count a (\"x\",\"y\")
ok count \"x\" \"y\" (0,1) (2,3)
0,2,1 starts a \"x\"
0,2,1 ends a \"x\" 1 2
0,2,1 equal a a
0,2,1 not_equal a \"x\"
0,2,1 less a c
0,2,1 less_equal c a
ok greater \"x\" \"y\"
0,1,1 greater_equal one \"x\"
0,2,1 isalpha a
0,2,1 isdecimal a
ok isalnum (\"x\",\"y\")
0,2,1 isspace c
2:9 replace a \"x\"
2:9 replace a \"x\" \"y\" 1 2
2:9 replace a \"x\" \"y\" into
2:9 find a
2:9 find a \"x\" 0
2:9 find a \"x\" 0 9 1
2:9 find a \"x\" 0 into a
2:9 starts a \"x\" 0
2:9 equal a
2:9 equal a a a
2:9 isalpha
2:9 isalpha a a
2:9 Find a \"x\"
4:9 find a x
4:9 isalpha d
5:9 find a \"x\" 0 9223372036854775808
5:9 replace a \"x\" \"y\" (1,9223372036854775808)
6:9 equal a[0,3,1] a
7:9 replace a 1 \"y\"
7:9 replace a \"x\" \"y\" \"z\"
7:9 replace a \"x\" na
7:9 find a 5
7:9 find a \"x\" \"y\" 9
7:9 find a \"x\" a 9
7:9 find a \"x\" into a
7:9 count a \"x\" 0 9 into c
7:9 starts a \"x\" into a
7:9 equal a a into a
7:9 equal a na
7:9 isalpha 5
7:9 isalpha a into a
8:9 find a (\"x\",\"y\",\"z\")
8:9 find a \"x\" (1,2,3) 9
8:9 less a (\"x\",\"y\",\"z\")
8:9 replace a \"x\" \"y\" into one
9:9 equal a w
9:9 find a w
9:9 replace a \"x\" \"y\" into w
";

#[test]
fn lines_of_calls_that_tell_of_texts(rt: HostRuntime) -> Result<(), Memory> {
    try_rows(&rt, rt.alloc(), ROWS)
}
