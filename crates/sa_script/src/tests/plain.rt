use super::try_rows;
use sa_base::Memory;

/// Declarations of plain arrays, behind a descriptor `d`. Then, behind two descriptors of different rules, arrays
/// of 2 entries of each kind, two of some widths, and `one` of 1: lists of each kind, put into arrays of each
/// kind; tokens that are no lists; calls on plain arrays; and what lists are, as a report writes them.
static ROWS: &str = "~descr d nan|~|end|
ok array i d int 0
ok array t d bool 8192
ok array b d bytes 1 1
ok array b d bytes 256 8192
ok array f d fixed 256 1
ok array f d fixed 001 -0
ok array int d int 1|array bytes d bytes 1 1
ok array i d int 4096|array b d bytes 8 4096
5:2 array i d int -1
5:2 array i d int 8193
5:2 array t d bool 9223372036854775808
5:2 array b d bytes 0 1
5:2 array b d bytes 257 1
5:2 array b d bytes -1 1
5:2 array b d bytes 9223372036854775808 1
5:2 array b d bytes 1 -1
5:2 array b d bytes 1 8193
5:2 array f d fixed 0 1
5:2 array f d fixed 257 0
5:2 array f d fixed 1 9223372036854775808
5:3 array i d int 4096|array f d fixed 8 4097
5:3 array s d str 8192|array t d bool 1
4:2 array d d int 1
4:2 array b x bytes 0 1
3:3 task|array b d bytes 0 1
2:2 array i d int
2:2 array i d int 1 1
2:2 array t d bool 1 1
2:2 array s d str 1 1
2:2 array b d bytes 1
2:2 array f d fixed 1
2:2 array b d bytes 1 1 1
2:2 array b d bytes x 1
2:2 array b d bytes 1 x
2:2 array b d byte 1 1
2:2 array i d Int 1
2:2 array i d float 1
~descr d nan|descr e other|array s d str 2|array i d int 2|array t d bool 2|array b d bytes 3 2|array f d fixed 2 2|array c d bytes 4 2|array g d fixed 3 2|array j e int 2|array one d int 1|task|~|end|
ok set s (na,\"x\")
ok set i 5
ok set i (-1,2)
ok set t true
ok set t (false,true)
ok set b hex:
ok set b (hex:00,hex:aAbBcC)
ok set c hex:00000000
ok set f units:
ok set f (units:0.10FFFF,units:d800)
ok set f units:ffffffff.FFFFFFFF
ok set g units:1.00000002.3
7:13 set s 5
7:13 set s true
7:13 set s hex:00
7:13 set s units:0
7:13 set i \"x\"
7:13 set i na
7:13 set i true
7:13 set i hex:00
7:13 set i units:0
7:13 set t \"true\"
7:13 set t na
7:13 set t 1
7:13 set t hex:01
7:13 set t units:1
7:13 set b \"x\"
7:13 set b na
7:13 set b 5
7:13 set b false
7:13 set b units:0
7:13 set f \"x\"
7:13 set f na
7:13 set f 5
7:13 set f false
7:13 set f hex:00
7:13 set b hex:00000000
7:13 set b (hex:00,hex:00000000)
7:13 set c hex:0000000000
7:13 set f units:1.2.3
7:13 set f (units:,units:1.2.3,units:)
7:13 set b hex:<257*00>
7:13 set b hex:<1000*00>
7:13 set f units:<300*0.>0
6:13 set b[0,3,1] hex:00000000
4:13 set x hex:00
3:14 end|set b hex:00
8:13 set i (1,2,3)
8:13 set t (true,false,true)
8:13 set b (hex:,hex:,hex:)
8:13 set f (units:,units:,units:)
8:13 set t (<8191*true,>true)
8:13 set b (<8191*hex:,>hex:)
8:13 set f (<8191*units:,>units:)
5:13 set i (1,9223372036854775808)
5:13 set t (<8192*true,>true)
5:13 set b (<8192*hex:,>hex:)
5:13 set f (<8192*units:,>units:)
2:13 set b hex:0
2:13 set b hex:000
2:13 set b hex:0g
2:13 set b hex:0x00
2:13 set b hex:00.00
2:13 set b hex
2:13 set b HEX:00
2:13 set b hex:00x
2:13 set b (hex:00
2:13 set b hex:00)
2:13 set f units:.
2:13 set f units:0.
2:13 set f units:.0
2:13 set f units:0..0
2:13 set f units:123456789
2:13 set f units:0.000000000
2:13 set f units:g
2:13 set f units
2:13 set f Units:0
2:13 set t tru
2:13 set t true1
2:13 set t TRUE
2:13 set t truefalse
2:13 set t (true, false)
2:13 set s (\"x\",true)
2:13 set s (na,hex:00)
2:13 set i (1,true)
2:13 set i (5,hex:00)
2:13 set t (true,1)
2:13 set t (true,\"x\")
2:13 set b (hex:00,units:0)
2:13 set b (hex:00,na)
2:13 set b (hex:00,5)
2:13 set f (units:0,hex:00)
2:13 set f (units:0,false)
2:13 set t (<8192*true,>1)
2:13 set b (<8192*hex:,>units:)
0,2,1 show i
0,2,1 show b
1,2,-1 show f[1,2,-1]
0,2,1 copy i into i
0,2,1 copy i into j
0,2,1 copy t into t
0,2,1 copy b into b
0,2,1 copy f into f
0,1,1 copy one into i
7:13 copy s into i
7:13 copy i into s
7:13 copy i into t
7:13 copy t into i
7:13 copy b into f
7:13 copy b into c
7:13 copy f into g
8:13 copy i into one
0,2,1 multiply s i
0,2,1 multiply s j into s
0,2,1 center s one
0,2,1 find s \"x\" i (1,2)
7:13 multiply s t
7:13 multiply s s
7:13 multiply s b
7:13 multiply i 2
7:13 multiply s true
7:13 multiply s hex:00
7:13 add i \"x\"
7:13 add s b
7:13 add s units:0
7:13 center s 5 true
7:13 find s \"x\" t 9
7:13 isalpha f
0,2,1 find s \"x\" into i
0,2,1 count s \"x\" into j
7:13 find s \"x\" into s
7:13 find s \"x\" into t
0,2,1 equal s s into t
0,2,1 isalpha s into t
7:13 starts s \"x\" into i
7:13 less s s into s
7:13 add s s into i
7:13 strip s into b
8:13 find s \"x\" into one
ok stats d
ok image e
2:13 multiply i[0,2] 2
6:13 copy i[0,3,1] into t
(7,0) set i (007,-0)
(true,false) set t (true,false)
(hex:00ffab,hex:) set b (hex:00fFaB,hex:)
(units:,units:41.10ffff.d800) set g (units:,units:00000041.10FFFF.d800)
(units:0.ffffffff) set f units:0.FFFFFFFF
";

#[test]
fn plain_arrays(rt: HostRuntime) -> Result<(), Memory> {
    try_rows(&rt, rt.alloc(), ROWS)
}
