//! What each C text begins with.

/// The prelude: 34 lines of C, each ended by byte 10. It is part of every text, whatever of it is used there.
pub const PRELUDE: &[u8] = b"#include <stdint.h>\n\
#include <stdio.h>\n\
#include <stdlib.h>\n\
#include <string.h>\n\
typedef union { int64_t i; void *p; } ps_cell;\n\
static int64_t ps_signed(uint64_t u) { return u <= (uint64_t)INT64_MAX ? (int64_t)u : -(int64_t)(UINT64_MAX - u) - 1; }\n\
static int64_t ps_shl(int64_t a, int64_t k) { return ps_signed((uint64_t)a << k); }\n\
static int64_t ps_shr(int64_t a, int64_t k) { return ps_signed((uint64_t)a >> k); }\n\
static int64_t ps_sar(int64_t a, int64_t k) { return a < 0 ? ~(~a >> k) : a >> k; }\n\
static int64_t ps_mod(int64_t a, int64_t b) { int64_t r = a % b; return r != 0 && (r < 0) != (b < 0) ? r + b : r; }\n\
static int64_t ps_read(void) { int c = getchar(); return c == EOF ? -1 : c; }\n\
static int64_t ps_write(int64_t b) { putchar((int)b); return 0; }\n\
static void *ps_alloc(int64_t n) { return malloc((size_t)n); }\n\
static int64_t ps_free(void *p) { free(p); return 0; }\n\
static int64_t ps_load(void *p) { return *(unsigned char *)p; }\n\
static int64_t ps_store(void *p, int64_t b) { *(unsigned char *)p = (unsigned char)b; return 0; }\n\
static int64_t ps_loadw(void *p) { uint64_t u = 0; int k; for (k = 7; k >= 0; k--) u = u << 8 | ((unsigned char *)p)[k]; return ps_signed(u); }\n\
static int64_t ps_storew(void *p, int64_t w) { uint64_t u = (uint64_t)w; int k; for (k = 0; k < 8; k++) { ((unsigned char *)p)[k] = (unsigned char)(u & 255); u >>= 8; } return 0; }\n\
static void *ps_move(void *p, int64_t k) { return (unsigned char *)p + k; }\n\
static int64_t ps_diff(void *p, void *q) { return (unsigned char *)p - (unsigned char *)q; }\n\
static int64_t ps_same(void *p, void *q) { return p == q; }\n\
static int64_t ps_before(void *p, void *q) { return (unsigned char *)p < (unsigned char *)q; }\n\
static int64_t ps_isnull(void *p) { return p == NULL; }\n\
static void *ps_rec(int64_t n) { return malloc((size_t)n * sizeof(ps_cell)); }\n\
static void *ps_vec_i(int64_t n, int64_t x) { ps_cell *v = ps_rec(n); int64_t k; if (v != NULL) for (k = 0; k < n; k++) v[k].i = x; return v; }\n\
static void *ps_vec_p(int64_t n, void *x) { ps_cell *v = ps_rec(n); int64_t k; if (v != NULL) for (k = 0; k < n; k++) v[k].p = x; return v; }\n\
static int64_t ps_get_i(void *v, int64_t k) { return ((ps_cell *)v)[k].i; }\n\
static void *ps_get_p(void *v, int64_t k) { return ((ps_cell *)v)[k].p; }\n\
static int64_t ps_put_i(void *v, int64_t k, int64_t x) { ((ps_cell *)v)[k].i = x; return 0; }\n\
static int64_t ps_put_p(void *v, int64_t k, void *x) { ((ps_cell *)v)[k].p = x; return 0; }\n\
static int64_t ps_init_i(void *v, int64_t k, int64_t x) { if (v != NULL) ((ps_cell *)v)[k].i = x; return 0; }\n\
static int64_t ps_init_p(void *v, int64_t k, void *x) { if (v != NULL) ((ps_cell *)v)[k].p = x; return 0; }\n\
static int64_t ps_strlen(void *s) { return (int64_t)strlen((char *)s); }\n\
static int64_t ps_strref(void *s, int64_t k) { return ((unsigned char *)s)[k]; }\n";
