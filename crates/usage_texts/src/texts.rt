//! How the program is used, and what the values of its options are.

/// All modes, with their options and an example each.
pub const USAGE: [&str; 31] = [
    "\nusage: pcg MODE OPTIONS [STEM..]\n",
    "\nOptions and stems stand in any order. An option is --name VALUE or --name=VALUE, and stands once.\n",
    "The word -- ends the options. No value and no stem begins with a hyphen. All files have names of\n",
    "their own.\n",
    "\nrehearse: answers the requests STEM.req of each client into STEM.ans, and prints the log and a summary\n",
    "  --bits B               how many bits of an id a coordinate takes, 1 to 16\n",
    "  --grid NX,NY,NZ        the base chunks along each axis, 1 to 2^B each\n",
    "  --supervoxels F        the file of the supervoxel table\n",
    "  --edges F              the file of the edge table\n",
    "  --merge-affinity M     the affinity of an edge that a merge adds, 1 to 4294967295\n",
    "  --records R            how many records there may be, 2 to 16777216 (if left out 1048576)\n",
    "  --clock START,STEP     entry n has the time START + STEP * n in milliseconds, each below 2^62\n",
    "  --schedule F           the file that says which client steps when (may be left out)\n",
    "  pcg rehearse --bits 8 --grid 2,1,1 --supervoxels supervoxels.csv --edges edges.csv \\\n",
    "      --merge-affinity 1 --clock 1000,10 first\n",
    "\nmake: makes the two tables and the requests STEM.req of each client from a number\n",
    "  --bits B               as above\n",
    "  --grid NX,NY,NZ        as above\n",
    "  --supervoxels F        the file that gets the supervoxel table\n",
    "  --edges F              the file that gets the edge table\n",
    "  --from N               the number, below 2^64\n",
    "  --size N               how many supervoxels, 1 to 1000000\n",
    "  --requests K           how many lines each client has, 0 to 100000\n",
    "  pcg make --bits 8 --grid 8,8,8 --supervoxels supervoxels.csv --edges edges.csv \\\n",
    "      --from 1 --size 20000 --requests 50 first second\n",
    "\ntrial: answers input that it makes from a number, in memory, and prints a summary; it has no stems\n",
    "  --bits, --grid, --merge-affinity, --records, --clock, --from, --size, --requests    as above\n",
    "  --clients C            how many clients, 1 to 64\n",
    "  pcg trial --bits 8 --grid 8,8,8 --merge-affinity 50 --records 4000000 --clock 1000,10 \\\n",
    "      --from 1 --size 20000 --requests 50 --clients 8\n",
    "\nA number is decimal digits without a sign or a leading zero.\n",
];

/// What the value of an option has to be, or nothing for the name of a file.
pub fn form_text(option: &str) -> &'static [u8] {
    match option {
        "bits" => b"a number from 1 to 16",
        "grid" => b"three numbers NX,NY,NZ, each from 1 to 2^B",
        "merge-affinity" => b"a number from 1 to 4294967295",
        "records" => b"a number from 2 to 16777216",
        "clock" => b"two numbers START,STEP, each below 2^62",
        "from" => b"a number below 2^64",
        "size" => b"a number from 1 to 1000000",
        "requests" => b"a number from 0 to 100000",
        "clients" => b"a number from 1 to 64",
        _ => b"",
    }
}
