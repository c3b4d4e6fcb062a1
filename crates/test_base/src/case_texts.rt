//! Texts of case files, and what they mean by docs/CASE-FILE.md.
/// A case with every kind of column and key.
pub const FULL: &str = r#"segment_blocks = 1024
[cluster]
next_xid = 1000
oldest_xid = 700
next_multi = 6
oldest_multi = 1
next_member = 4
xact = "pg_xact"
offsets = "pg_multixact/offsets"
members = "pg_multixact/members"
[heap]
file = "t"
toast_file = "o"
toast_oid = 16400
[[column]]
name = "id"
type = "int8"
[[column]]
name = "flag"
type = "bool"
missing = "01"
[[column]]
name = "note"
type = "text"
[[column]]
name = "day"
type = "fixed"
len = 4
align = 4
missing = "05000000"
[[column]]
name = "sum"
type = "varlena"
align = 4
[[index]]
name = "t_pkey"
file = "i1"
[[index.key]]
column = "id"
[[index]]
name = "t_note"
file = "i2"
include = ["sum", "day"]
unique = true
nulls_not_distinct = true
[[index.key]]
column = "note"
desc = true
[[index.key]]
column = "flag"
nulls_first = true
"#;

/// On each line an outcome, and the edits of FULL that lead to it: what stands behind ` -> ` is put in place of what
/// stands before it; `*` is the whole text, `\n` a line end. The outcome of a refusal is its rule and place; that of a
/// case is a part of how the tests describe it. `<200x>` and the like stand for so many of a piece, and `<none>` for
/// none, as `MARKS` says.
pub const EDITS: &str = r#"
C1 text | * -> a = <none>
C1 text | next_xid = 1000 -> next_xid = 1000\nnext_xid = 1000
C1 text | [heap] -> [cluster]
C1 text | file = "t" -> file = "t
C1 text | next_xid = 1000 -> next_xid = 01000
C1 text | next_xid = 1000 -> next_xid = 9223372036854775808
C1 text | [[index]]\nname = "t_pkey" -> [index]\nname = "t_pkey"
C2 cluster | * -> <none>
C2 cluster | [cluster] -> [clusters]
C2 cluster.next_xid | next_xid = 1000\n -> <none>
C2 cluster.oldest_xid | oldest_xid = 700\n -> <none>
C2 cluster.next_multi | next_multi = 6\n -> <none>
C2 cluster.oldest_multi | oldest_multi = 1\n -> <none>
C2 cluster.next_member | next_member = 4\n -> <none>
C2 cluster.xact | xact = "pg_xact"\n -> <none>
C2 cluster.offsets | offsets = "pg_multixact/offsets"\n -> <none>
C2 cluster.members | members = "pg_multixact/members"\n -> <none>
C2 heap | [heap] -> [heaps]
C2 heap.file | file = "t"\n -> <none>
C2 heap.toast_file | toast_file = "o"\n -> <none>
C2 heap.toast_oid | toast_oid = 16400\n -> <none>
C2 column | * -> [cluster]\n<cluster>\n[heap]\nfile = "t"
C2 column[0].name | name = "id"\n -> <none>
C2 column[2].type | type = "text"\n -> <none>
C2 column[3].len | len = 4\n -> <none>
C2 column[3].align | len = 4\nalign = 4 -> len = 4
C2 column[4].align | type = "varlena"\nalign = 4 -> type = "varlena"
C2 index[0].name | name = "t_pkey"\n -> <none>
C2 index[1].file | file = "i2"\n -> <none>
C2 index[0].key | [[index.key]]\ncolumn = "id"\n -> <none>
C2 index[1].key[1].column | column = "flag"\n -> <none>
C3 segment_blocks | segment_blocks = 1024 -> segment_blocks = 1024.0
C3 cluster | * -> cluster = 1\n[heap]\nfile = "t"\n[[column]]\nname = "a"\ntype = "int4"
C3 cluster.next_xid | next_xid = 1000 -> next_xid = "1000"
C3 cluster.next_xid | next_xid = 1000 -> next_xid = 2020-02-20
C3 cluster.members | members = "pg_multixact/members" -> members = ["m"]
C3 heap | * -> heap = []\n[cluster]\n<cluster>\n[[column]]\nname = "a"\ntype = "int4"
C3 heap.toast_oid | toast_oid = 16400 -> toast_oid = true
C3 column | * -> column = [{ name = "a", type = "int4" }, 1]\n[cluster]\n<cluster>\n[heap]\nfile = "t"
C3 column | * -> [cluster]\n<cluster>\n[heap]\nfile = "t"\n[column]\nname = "a"\ntype = "int4"
C3 column[0].name | name = "id" -> name = 1
C3 column[2].type | type = "text" -> type = 25
C3 column[2].len | type = "text" -> type = "text"\nlen = "4"
C3 column[1].missing | missing = "01" -> missing = 1
C3 index[0].key | [[index.key]]\ncolumn = "id" -> key = "id"
C3 index[1].key[0].desc | desc = true -> desc = 1
C3 index[1].key[1].nulls_first | nulls_first = true -> nulls_first = "true"
C3 index[0].include | file = "i1" -> file = "i1"\ninclude = "id"
C3 index[0].include | file = "i1" -> file = "i1"\ninclude = true
C3 index[1].include | include = ["sum", "day"] -> include = { name = "sum" }
C3 index[0].include[0] | file = "i1" -> file = "i1"\ninclude = [1]
C3 index[0].include[1] | file = "i1" -> file = "i1"\ninclude = ["id", ["id"], 1]
C3 index[1].include[2] | include = ["sum", "day"] -> include = ["sum", "day", { name = "id" }]
C3 index[0].include[0] | file = "i1" -> file = "i1"\n[[index.include]]\nname = "id"
C3 index[0].unique | file = "i1" -> file = "i1"\nunique = 1
C3 index[0].unique | file = "i1" -> file = "i1"\nunique = "true"
C3 index[0].unique | file = "i1" -> file = "i1"\n[index.unique]\nid = true
C3 index[1].unique | unique = true -> unique = [true]
C3 index[1].nulls_not_distinct | nulls_not_distinct = true -> nulls_not_distinct = "true"
C3 index[1].nulls_not_distinct | nulls_not_distinct = true -> nulls_not_distinct = { flag = true }
C3 index[0].nulls_not_distinct | file = "i1" -> file = "i1"\nnulls_not_distinct = 0
C4 segment_blocks | segment_blocks = 1024 -> segment_blocks = 0
C4 segment_blocks | segment_blocks = 1024 -> segment_blocks = 131073
C4 cluster.next_xid | next_xid = 1000 -> next_xid = 2
C4 cluster.next_xid | next_xid = 1000 -> next_xid = 4294967296
C4 cluster.oldest_xid | oldest_xid = 700 -> oldest_xid = 2
C4 cluster.oldest_xid | oldest_xid = 700 -> oldest_xid = 4294967296
C4 cluster.next_multi | next_multi = 6 -> next_multi = -1
C4 cluster.next_multi | next_multi = 6 -> next_multi = 4294967296
C4 cluster.oldest_multi | oldest_multi = 1 -> oldest_multi = 0
C4 cluster.oldest_multi | oldest_multi = 1 -> oldest_multi = 4294967296
C4 cluster.next_member | next_member = 4 -> next_member = -1
C4 cluster.next_member | next_member = 4 -> next_member = 4294967296
C4 cluster.xact | xact = "pg_xact" -> xact = ""
C4 cluster.offsets | offsets = "pg_multixact/offsets" -> offsets = "<200x>x"
C4 heap.file | file = "t" -> file = ""
C4 heap.toast_file | toast_file = "o" -> toast_file = "<200x>x"
C4 heap.toast_oid | toast_oid = 16400 -> toast_oid = 0
C4 heap.toast_oid | toast_oid = 16400 -> toast_oid = 4294967296
C4 column | * -> column = []\n[cluster]\n<cluster>\n[heap]\nfile = "t"
C4 column | * -> [cluster]\n<cluster>\n[heap]\nfile = "t"\n<64 columns>[[column]]\nname = "b"\ntype = "int4"
C4 column[0].name | name = "id" -> name = ""
C4 column[0].name | name = "id" -> name = "<63x>x"
C4 column[0].name | name = "id" -> name = "éééééééééééééééééééééééééééééééé"
C4 column[3].len | len = 4 -> len = 0
C4 column[3].len | len = 4 -> len = 8001
C4 column[3].align | len = 4\nalign = 4 -> len = 4\nalign = 0
C4 column[3].align | len = 4\nalign = 4 -> len = 4\nalign = 3
C4 column[3].align | len = 4\nalign = 4 -> len = 4\nalign = 4294967300
C4 column[4].align | type = "varlena"\nalign = 4 -> type = "varlena"\nalign = 2
C4 column[4].align | type = "varlena"\nalign = 4 -> type = "varlena"\nalign = 16
C4 column[1].missing | missing = "01" -> missing = "0g"
C4 column[1].missing | missing = "01" -> missing = "010"
C4 column[1].missing | missing = "01" -> missing = ""
C4 column[1].missing | missing = "01" -> missing = "0101"
C4 column[1].missing | type = "bool"\nmissing = "01" -> type = "int2"\nmissing = "01"
C4 column[1].missing | type = "bool"\nmissing = "01" -> type = "int4"\nmissing = "010203"
C4 column[0].missing | type = "int8" -> type = "int8"\nmissing = "01020304"
C4 column[0].missing | type = "int8" -> type = "uuid"\nmissing = "0102030405060708090a0b0c0d0e0f"
C4 column[2].missing | type = "text" -> type = "text"\nmissing = "<8000 bytes>00"
C4 column[2].missing | type = "text" -> type = "bytea"\nmissing = "<8000 bytes>00"
C4 column[3].missing | missing = "05000000" -> missing = "0500000000"
C4 column[3].missing | missing = "05000000" -> missing = "050000"
C4 column[4].missing | type = "varlena" -> type = "varlena"\nmissing = "<8000 bytes>00"
C4 column[2].missing | type = "text" -> type = "real"\nmissing = "zz"
C4 index | [[index]]\nname = "t_pkey" -> <32 indexes>[[index]]\nname = "t_pkey"
C4 index[0].name | name = "t_pkey" -> name = ""
C4 index[0].name | name = "t_pkey" -> name = "<63x>x"
C4 index[0].file | file = "i1" -> file = ""
C4 index[0].file | file = "i1" -> file = "<200x>x"
C4 index[0].key | [[index.key]]\ncolumn = "id" -> key = []
C4 index[0].key | column = "id"\n -> column = "id"\n<8 keys>
C4 index[0].include | file = "i1" -> file = "i1"\ninclude = [<24 names>"id"]
C4 index[1].include | include = ["sum", "day"] -> include = [<24 names>"note"]
C5 column[0].type | type = "int8" -> type = "real"
C5 column[0].type | type = "int8" -> type = "INT8"
C5 column[0].type | type = "int8" -> type = "Oid"
C5 column[0].type | type = "int8" -> type = "time"
C5 column[2].type | type = "text" -> type = ""
C5 column[2].type | type = "text" -> type = "real"\nmissing = "01"
C5 column[1].name | name = "flag" -> name = "id"
C5 column[4].name | name = "sum" -> name = "day"
C5 index[1].name | name = "t_note" -> name = "t_pkey"
C5 index[0].key[0].column | column = "id" -> column = "ID"
C5 index[0].key[0].column | column = "id" -> column = "day"
C5 index[1].key[1].column | column = "flag" -> column = "sum"
C5 index[0].include[0] | file = "i1" -> file = "i1"\ninclude = ["ID"]
C5 index[0].include[0] | file = "i1" -> file = "i1"\ninclude = ["int8"]
C5 index[0].include[1] | file = "i1" -> file = "i1"\ninclude = ["id", ""]
C5 index[1].include[2] | include = ["sum", "day"] -> include = ["sum", "sum", "t_note"]
C6 top | segment_blocks = 1024 -> colour = 1
C6 top | segment_blocks = 1024 -> "" = 1
C6 cluster | next_member = 4 -> next_member = 4\nnext_oid = 4
C6 heap | file = "t" -> file = "t"\ntoast.file = "o"
C6 column[1] | type = "bool" -> type = "bool"\n"not null" = true
C6 column[0] | type = "int8" -> type = "int8"\nlen = 8
C6 column[2] | type = "text" -> type = "text"\nalign = 4
C6 column[4] | type = "varlena" -> type = "varlena"\nlen = 4
C6 index[0] | file = "i1" -> file = "i1"\nnulls_distinct = true
C6 index[1].key[0] | desc = true -> desc = true\ncollation = "C"
C6 index[0] | file = "i1" -> file = "i1"\nincludes = ["id"]
C6 index[1].key[0] | desc = true -> desc = true\ninclude = ["id"]
C6 column[0] | type = "int8" -> type = "int8"\ninclude = []
C6 index[1].key[0] | desc = true -> desc = true\nunique = true
C6 index[0].key[0] | column = "id" -> column = "id"\nnulls_not_distinct = false
C6 column[0] | type = "int8" -> type = "int8"\nunique = false
C7 cluster | oldest_xid = 700 -> oldest_xid = 2000
C7 cluster | oldest_xid = 700 -> oldest_xid = 1001
C7 cluster | next_xid = 1000\noldest_xid = 700 -> next_xid = 2147483651\noldest_xid = 3
C7 cluster | oldest_multi = 1 -> oldest_multi = 7
C7 cluster | next_multi = 6\noldest_multi = 1 -> next_multi = 0\noldest_multi = 2
C7 cluster | next_multi = 6 -> next_multi = 2147483649
C2 index[1].file | segment_blocks = 1024 -> segment_blocks = "x" | file = "i2"\n -> <none>
C2 heap.file | toast_oid = 16400\n -> <none> | file = "t"\n -> <none>
C3 index[1].key[0].desc | segment_blocks = 1024 -> segment_blocks = 0 | desc = true -> desc = 1
C3 heap.toast_oid | toast_oid = 16400 -> toast_oid = "1" | name = "id" -> name = 1
C4 index[1].file | type = "int8" -> type = "real" | file = "i2" -> file = ""
C4 cluster.next_xid | next_xid = 1000\noldest_xid = 700 -> oldest_xid = 0\nnext_xid = 0
C5 index[1].name | segment_blocks = 1024 -> colour = 1 | name = "t_note" -> name = "t_pkey"
C5 index[0].key[0].column | name = "t_note" -> name = "t_pkey" | column = "id" -> column = "sum"
C6 index[1].key[0] | oldest_xid = 700 -> oldest_xid = 2000 | desc = true -> desc = true\nnulls = 1
C6 index[0].key[0] | column = "id" -> column = "id"\nnulls = 1 | file = "i2" -> file = "i2"\nmethod = "btree"
C6 cluster | next_member = 4 -> next_member = 4\nx = 1 | file = "t" -> file = "t"\nx = 1
C3 index[1].key[0].desc | include = ["sum", "day"] -> include = 1 | desc = true -> desc = 1
C3 index[0].include | file = "i1" -> file = "i1"\ninclude = 1 | name = "t_note" -> name = 1
C3 index[1].include[0] | include = ["sum", "day"] -> include = [1, 2]
C3 index[0].include[24] | file = "i1" -> file = "i1"\ninclude = [<24 names>1]
C3 index[1].include[0] | file = "i1" -> file = "" | include = ["sum", "day"] -> include = [1]
C4 index[0].key | column = "id"\n -> column = "id"\n<8 keys> | file = "i1" -> file = "i1"\ninclude = [<24 names>"id"]
C4 index[0].include | file = "i1" -> file = "i1"\ninclude = [<24 names>"id"] | file = "i2" -> file = ""
C4 index[0].include | file = "i1" -> file = "i1"\ninclude = [<24 names>"x"]
C5 index[0].key[0].column | file = "i1" -> file = "i1"\ninclude = ["x"] | column = "id" -> column = "sum"
C5 index[0].include[0] | file = "i1" -> file = "i1"\ninclude = ["x"] | column = "note" -> column = "sum"
C5 index[1].include[1] | segment_blocks = 1024 -> colour = 1 | include = ["sum", "day"] -> include = ["sum", "x", "y"]
C2 index[1].name | unique = true -> unique = 1 | name = "t_note"\n -> <none>
C3 index[1].key[1].nulls_first | unique = true -> unique = 1 | nulls_first = true -> nulls_first = 1
C3 index[1].include[1] | unique = true -> unique = 1 | include = ["sum", "day"] -> include = ["sum", 1]
C3 index[1].unique | unique = true\nnulls_not_distinct = true -> nulls_not_distinct = 1\nunique = 1
C3 index[0].nulls_not_distinct | file = "i1" -> file = "i1"\nnulls_not_distinct = 1 | name = "t_note" -> name = 1
C3 index[1].unique | file = "i2" -> file = "" | unique = true -> unique = 1
C3 index[1].nulls_not_distinct | name = "flag" -> name = "id" | nulls_not_distinct = true -> nulls_not_distinct = 1
ok blocks 1024, cluster 1000 700 6 1 4, dirs pg_xact pg_multixact/offsets pg_multixact/members, heap t, toast o 16400
columns Int8 null, Bool true, Text null, Fixed { len: 4, align: 4 } 05000000, Varlena { align: 4 } null
index 1 i1 KeySpec { column: 0, ctype: Int8, desc: false, nulls_first: false }
index 2 i2 KeySpec { column: 2, ctype: Text, desc: true, nulls_first: true } KeySpec { column: 1, ctype: Bool, desc: false, nulls_first: true } MoreSpec { column: 4, ctype: Varlena { align: 4 } } MoreSpec { column: 3, ctype: Fixed { len: 4, align: 4 } } NullsEqual,
blocks 131072, | segment_blocks = 1024\n -> <none>
blocks 131072, | segment_blocks = 1024 -> segment_blocks = 131072
blocks 1, | segment_blocks = 1024 -> segment_blocks = 1
cluster 3 3 | next_xid = 1000\noldest_xid = 700 -> next_xid = 3\noldest_xid = 3
cluster 4294967295 4294967295 | next_xid = 1000\noldest_xid = 700 -> next_xid = 4294967295\noldest_xid = 4294967295
cluster 2147483650 3 | next_xid = 1000\noldest_xid = 700 -> next_xid = 2147483650\noldest_xid = 3
cluster 100 4294967000 | next_xid = 1000\noldest_xid = 700 -> next_xid = 100\noldest_xid = 4294967000
700 1 1 4, | next_multi = 6 -> next_multi = 0
700 1 4294967295 4, | next_multi = 6\noldest_multi = 1 -> next_multi = 0\noldest_multi = 4294967295
700 4294967295 4294967295 4, | next_multi = 6\noldest_multi = 1 -> next_multi = 4294967295\noldest_multi = 4294967295
6 1 0, | next_member = 4 -> next_member = 0
6 1 4294967295, | next_member = 4 -> next_member = 4294967295
cluster 1000 700 | next_xid = 1000 -> "next_xid" = 0x3e8 | oldest_xid = 700 -> oldest_xid = 7_00 # a comment
dirs <200x> p | xact = "pg_xact" -> xact = "<200x>" | offsets = "pg_multixact/offsets" -> offsets = "p"
heap t, no toast | toast_file = "o"\ntoast_oid = 16400\n -> <none>
toast o 4294967295 | toast_oid = 16400 -> toast_oid = 4294967295
Int8 null | name = "id" -> name = "<63x>" | column = "id" -> column = "<63x>"
Int8 null | name = "id" -> name = 'not null' | column = "id" -> column = 'not null'
Bool false | missing = "01" -> missing = "00"
Bool null | missing = "01"\n -> <none>
Int2 -2 | type = "bool"\nmissing = "01" -> type = "int2"\nmissing = "feFF"
Int4 305419896 | type = "bool"\nmissing = "01" -> type = "int4"\nmissing = "78563412"
Int8 -9223372036854775808 | type = "int8" -> type = "int8"\nmissing = "0000000000000080"
Oid 4294967295 | type = "bool"\nmissing = "01" -> type = "oid"\nmissing = "ffffffff"
Date -2147483648 | type = "bool"\nmissing = "01" -> type = "date"\nmissing = "00000080"
Timestamp 9223372036854775807 | type = "int8" -> type = "timestamp"\nmissing = "ffffffffffffff7f"
Timestamptz -1 | type = "int8" -> type = "timestamptz"\nmissing = "ffffffffffffffff"
i1 KeySpec { column: 0, ctype: Timestamptz | type = "int8" -> type = "timestamptz"
Uuid 000102030405060708090a0b0c0d0e0f | type = "int8" -> type = "uuid"\nmissing = "000102030405060708090A0B0C0D0E0F"
Text , | type = "text" -> type = "text"\nmissing = ""
Text 616263, | type = "text" -> type = "text"\nmissing = "616263"
Bytea , | type = "text" -> type = "bytea"\nmissing = ""
Text <8000 bytes> | type = "text" -> type = "text"\nmissing = "<8000 bytes>"
Varlena { align: 8 } , | type = "varlena"\nalign = 4 -> type = "varlena"\nalign = 8\nmissing = ""
Fixed { len: 1, align: 1 } ff | len = 4\nalign = 4\nmissing = "05000000" -> len = 1\nalign = 1\nmissing = "ff"
Fixed { len: 8000, align: 8 } null | len = 4\nalign = 4\nmissing = "05000000" -> len = 8000\nalign = 8
Fixed { len: 6, align: 2 } null | len = 4\nalign = 4\nmissing = "05000000" -> len = 6\nalign = 2
ctype: Text, desc: false, nulls_first: false | desc = true -> desc = false
ctype: Text, desc: true, nulls_first: false | desc = true -> desc = true\nnulls_first = false
ctype: Bool, desc: false, nulls_first: false | nulls_first = true\n -> <none>
i1 KeySpec { column: 0, ctype: Int8, desc: false, nulls_first: false } KeySpec { column: 0, ctype: Int8 | column = "id"\n -> column = "id"\n<7 keys>
ctype: Bool, desc: false, nulls_first: true } NullsEqual, | include = ["sum", "day"]\n -> <none>
index 1 i1 KeySpec { column: 0, ctype: Int8, desc: false, nulls_first: false } No, index 2 | file = "i1" -> file = "i1"\ninclude = []
false } MoreSpec { column: 0, ctype: Int8 } MoreSpec { column: 1, ctype: Bool } MoreSpec { column: 0, ctype: Int8 } No, index 2 | file = "i1" -> file = "i1"\ninclude = ["id", "flag", "id"]
nulls_first: false }<24 included> No, index 2 | file = "i1" -> file = "i1"\ninclude = [<24 names>]
nulls_first: true } MoreSpec { column: 2, ctype: Text } NullsEqual, | include = ["sum", "day"] -> include = ['note']
MoreSpec { column: 4, ctype: Varlena { align: 8 } } MoreSpec | type = "varlena"\nalign = 4 -> type = "varlena"\nalign = 8
nulls_first: false } No, index 2 | file = "i1" -> file = "i1"\nunique = false
nulls_first: false } No, index 2 | file = "i1" -> file = "i1"\nnulls_not_distinct = true
nulls_first: false } No, index 2 | file = "i1" -> file = "i1"\nunique = false\nnulls_not_distinct = true
nulls_first: false } NullsDistinct, index 2 | file = "i1" -> file = "i1"\nunique = true
nulls_first: false } NullsDistinct, index 2 | file = "i1" -> file = "i1"\nnulls_not_distinct = false\nunique = true
nulls_first: false } NullsEqual, index 2 | file = "i1" -> file = "i1"\nnulls_not_distinct = true\nunique = true
align: 4 } } NullsDistinct, | nulls_not_distinct = true\n -> <none>
align: 4 } } No, | unique = true\n -> <none>
align: 4 } } No, | unique = true\nnulls_not_distinct = true\n -> <none>
no toast, columns Int4 null, no index | * -> index = []\n[cluster]\n<cluster>\n[heap]\nfile = "t"\n[[column]]\nname = "a"\ntype = "int4"
columns Int4 null, index 1 i KeySpec { column: 0, ctype: Int4, desc: true, nulls_first: true } No, | * -> heap.file = "t"\ncolumn = [{ name = "a", type = "int4" }]\nindex = [{ name = "x", file = "i", key = [{ column = "a", desc = true }] }]\n[cluster]\n<cluster>
columns Int4 null, index 1 i KeySpec { column: 0, ctype: Int4, desc: false, nulls_first: false } MoreSpec { column: 0, ctype: Int4 } No, | * -> heap.file = "t"\ncolumn = [{ name = "a", type = "int4" }]\nindex = [{ name = "x", include = ["a"], file = "i", key = [{ column = "a" }] }]\n[cluster]\n<cluster>
columns Int4 null, index 1 i KeySpec { column: 0, ctype: Int4, desc: false, nulls_first: false } NullsDistinct, | * -> heap.file = "t"\ncolumn = [{ name = "a", type = "int4" }]\nindex = [{ unique = true, name = "x", file = "i", key = [{ column = "a" }] }]\n[cluster]\n<cluster>
"#;
