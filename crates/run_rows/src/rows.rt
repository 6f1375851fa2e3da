//! Scripts with the lines that they print, and texts that are no scripts with the line at fault.

/// Scripts, and what each prints.
pub(crate) const ROWS: [(&[u8], &[u8]); 16] = [
    (b"machine 8\n", b""),
    (b"# one\n\nmachine 8 1\n#two\nframes", b"held 0 free 8\n"),
    (
        b"machine 2048\nmap 100000 2 rw\nwrite 100000 6162\nfork 1 eager\nwrite 100000 7a\n\
          read 100000 2\nsread 1 100000 2\nsread 2 100000 1\nread 300000 1\n",
        b"ok\nok\nok\nok\n7a62\n6162\nnosnap\nnoarea 300000\n",
    ),
    (
        b"machine 2048\nread 0 1\nmap 1ff000 1 rw\nwrite 1fffff 61\nread 1ffffe 2\nread 1feffe 3\n",
        b"noarea 0\nok\nok\n0061\nnoarea 1fe000\n",
    ),
    (
        b"machine 2048\nmap 0 2 rw\nwrite fff 6162\nread ffe 4\nfork 3 eager\nwrite fff 00\n\
          sread 3 ffe 4\nread ffe 4\n",
        b"ok\nok\n00616200\nok\nok\n00616200\n00006200\n",
    ),
    (
        b"machine 65536\nfork 4294967295 eager\nmap 0 1 rw\nsread 4294967295 0 1\nwrite 1000 61\n\
          sread 1 0 1\n",
        b"ok\nok\nnoarea 0\nnoarea 1000\nnosnap\n",
    ),
    (
        b"machine 64\nmap 100000 2 rw\nwrite 100000 6162\nfork 1 eager\nframes\nwrite 100000 7a\n\
          read 100000 2\nsread 1 100000 2\nframes\ndrop 1\nframes\n",
        b"ok\nok\nok\nheld 9 free 55\nok\n7a62\n6162\nheld 10 free 54\nok\nheld 5 free 59\n",
    ),
    (
        b"machine 64\nmap 1ff000 2 rw\nwrite 1fffff 61\nframes\nread 1fffff 2\nframes\n",
        b"ok\nok\nheld 5 free 59\n6100\nheld 5 free 59\n",
    ),
    (
        b"machine 8\nmap fffffffff000 1 rw\nwrite ffffffffffff 7a\nread ffffffffffff 1\nframes\n",
        b"ok\nok\n7a\nheld 5 free 3\n",
    ),
    (
        b"machine 9\nmap 100000 2 rw\nwrite 100000 61\nfork 1 eager\nframes\nwrite 101000 62\n\
          read 101000 1\nsread 1 100000 1\ndrop 1\nwrite 101000 62\nframes\n",
        b"ok\nok\nok\nheld 9 free 0\nnoframe 1\n00\n61\nok\nok\nheld 6 free 3\n",
    ),
    (
        b"machine 64\nmap 100000 2 rw\nwrite 100000 6162\nfork 1 eager\nrefuse 1\n\
          write 100000 7a\nread 100000 2\nsread 1 100000 2\nframes\ndrop 1\nframes\n",
        b"ok\nok\nok\nok\nok\n7a62\nlost 1\nheld 8 free 56\nok\nheld 5 free 59\n",
    ),
    (
        b"machine 64\nmap 100000 2 rw\nwrite 100000 61\nfork 1 eager\ncopy 1 0\ncopy 2 0\n\
          refuse 1\nwrite 100000 62\ncopy 1 0\nsread 1 100000 1\n",
        b"ok\nok\nok\nnothing\nnosnap\nok\nok\nlost 1\nlost 1\n",
    ),
    (
        b"machine 64\nmap 100000 1 rw\nmap 101000 1 r\nwrite 300000 61\nwrite 101000 61\n\
          write 100fff 6162\nunmap 101000 1\nwrite 100fff 6162\nread 100fff 1\nframes\n",
        b"ok\nok\nnoarea 300000\nnowrite 101000\nnowrite 101000\nok\nnoarea 101000\n00\n\
          held 0 free 64\n",
    ),
    (
        b"machine 64\nmap 100000 3 rw\nprotect 101000 1 r\nareas\nwrite 100000 61\n\
          write 101000 61\nwrite 102000 61\nprotect 101000 1 rw\nareas\nframes\n",
        b"ok\nok\nareas 100000 1 rw, 101000 1 r, 102000 1 rw\nok\nnowrite 101000\nok\nok\n\
          areas 100000 3 rw\nheld 6 free 58\n",
    ),
    (
        b"machine 8\nmap 100000 5 rw\nfill 100000 20480 61\nread 100000 2\nframes\n\
          fill 100000 16384 61\nread 103fff 1\nframes\n",
        b"ok\nnoframe 1\n0000\nheld 0 free 8\nok\n61\nheld 8 free 0\n",
    ),
    (
        b"machine 64 1\nmap 0 1024 rw\nwrite 1fffff 61\nwrite 200000 61\nfill 1fffff 2 62\n\
          read 1fffff 1\nmap 1000 1 r\nfork 1 eager\nfork 2 eager\nsread 2 0 1\ndrop 2\ncopy 2 0\n\
          sread 1 400000 1\n",
        b"ok\nok\ncellsfull\ncellsfull\n61\noverlap 1000\nok\ntoomany\nnosnap\nnosnap\nnosnap\n\
          noarea 400000\n",
    ),
];

/// Texts that are no scripts, and the line of the first fault.
pub(crate) const FAULTY_TEXTS: [(&[u8], u64); 10] = [
    (b"", 1),
    (b"\n#\n", 3),
    (b"\0\0\0", 1),
    (b"machine 7\n", 1),
    (b"machine 8 513\n", 1),
    (b"machine 8\nmachine 8\n", 2),
    (b"machine 8\n\n# map\nfork 1 ondemand\nframe\n", 4),
    (b"machine 8\nfork 2 eager\nfork 2 eager\n", 3),
    (
        b"machine 8\nmap fffffffff000 1 rw\nwrite ffffffffffff 7a\nread ffffffffffff 1\nframes\n\
          map 1000000000000 1 rw\n",
        6,
    ),
    (b"machine 8\nframes\nread 0 0", 3),
];
